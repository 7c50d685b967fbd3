// Buffers that a caller lends for writing.
#![tactic(auto)]

ghost use Rattle.std.specs.Prelude.{◌≡◌};
ghost use Rattle.model_spec.specs.How.Buffers.{filled_from};

// Puts a byte into every place from a place on.
pub fn fill_from(buffer: &mut [u8], from: usize, byte: u8)
    ensures { buffer.new ≡ filled_from byte from buffer.old }
{
    let start = from.min(buffer.len());
    buffer[start..].fill(byte);
}
