// The bytes between the items of a line of a rule file.
#![tactic(auto)]

ghost use Rattle.std.specs.Prelude.{◌≡◌};
ghost use Rattle.files_spec.specs.Reading.{ending_of};

// The byte that ends an item with so many items after it.
pub fn ending(after: usize) -> u8
    ensures { result ≡ ending_of after }
{
    if after == 0 { b'\n' } else { b',' }
}
