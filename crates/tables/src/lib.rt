// Pruning tables (document 01: drop tables): an entry of one, and how many it has.
#![tactic(auto)]

ghost use Rattle.std.specs.Prelude.{◌≡◌, min, ◌<◌, get_or};
ghost use Rattle.tables_spec.specs.Table.{sequence_count, entry_at};

// The entry of a sequence that is kept.
pub const KEPT: usize = 65535;

// A byte of a table, 0 beyond its end.
fn byte_at(table: &[u8], i: usize) -> u8
    ensures { result ≡ get_or table.now i 0 }
{
    table.get(i).copied().unwrap_or(0)
}

// An entry of a table: two bytes, low byte first. Bytes beyond the table's end are 0.
pub fn entry_at(table: &[u8], i: usize) -> usize
    ensures { (result ≡ entry_at table.now i)
        × (result < 65536) }
{
    if table.len() / 2 < i {
        return 0;
    }
    let bytes = [byte_at(table, 2 * i), byte_at(table, 2 * i + 1)];
    u16::from_le_bytes(bytes) as usize
}

// How many sequences have at most `reach` rules, the number of a table's entries. A reach above 3 counts as 3.
pub fn sequence_count(count: u8, reach: usize) -> usize
    ensures { result ≡ sequence_count count (min reach 3) }
{
    let many = count as usize;
    let mut first = 1;
    for _ in 0..reach.min(3) {
        first = first * many + 1;
    }
    first
}
