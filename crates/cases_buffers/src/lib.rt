// What the case programs have in common: numbers put into a buffer.
#![tactic(auto)]

ghost use Rattle.std.specs.Prelude.{◌≡◌, ◌%◌, set};
ghost use Rattle.cases_laws.specs.How.Texts.{with_entry};

// Puts a byte at a place of a buffer, if it has that place.
pub fn put_byte(place: usize, value: usize, bytes: &mut [u8])
    ensures { bytes.new ≡ set bytes.old place (value % 256) }
{
    // by index: after a `get_mut` that gives none, no fact says that the bytes are as before
    if place < bytes.len() {
        bytes[place] = (value % 256) as u8;
    }
}

// Puts an entry at an index of a table, if it has that index, low byte first.
#[tactic(auto, unfolding(cases_laws::specs::How::Texts::with_entry))]
pub fn put_entry(index: usize, value: usize, table: &mut [u8])
    ensures { table.new ≡ with_entry index value table.old }
{
    if 32768 <= index {
        return;
    }
    put_byte(2 * index, value, table);
    put_byte(2 * index + 1, value / 256, table);
}
