// The marked segment of a proposal that ends soonest, the shortest of those, and the witness that the table names for
// it.
#![tactic(auto)]

ghost use Rattle.std.specs.Prelude.{◌≡◌, ◌≤◌, length, take};
ghost use Rattle.theory_spec.specs.Lists.{padded};
ghost use Rattle.theory_spec.specs.How.Indices.{index_of};
ghost use Rattle.tables_spec.specs.Table.{entry_at};
ghost use Rattle.tables_laws.specs.How.ShortSequences.{short_sequence};
ghost use Rattle.explain_spec.specs.Segments.{shortest_at, soonest_end, soonest_length};
ghost use Rattle.explain_laws.specs.How.LookedUp.{looked_up, segment_if};
ghost use Rattle.explain_laws.specs.How.Proposals.{place_if};

use explain_laws::{Segment, Witness};
use sequences::sequence_at;
use tables::{KEPT, entry_at};

// A table has sequences of at most three rules.
const LONGEST: usize = 3;

// The first three rules of a sequence, or all where it has fewer.
fn first_three(sequence: &[u8]) -> &[u8]
    ensures { result.now ≡ take 3 sequence.now }
{
    &sequence[..sequence.len().min(LONGEST)]
}

// The index of a sequence among those of `count` rules. Of a longer one the first three rules count.
fn index_of(count: u8, sequence: &[u8]) -> usize
    ensures { result ≡ index_of count (take 3 sequence.now) }
{
    let mut index = 0;
    for number in first_three(sequence) {
        index = index * usize::from(count) + usize::from(*number);
    }
    index
}

// Whether a table marks a sequence.
fn is_marked(count: u8, reach: usize, table: &[u8], sequence: &[u8]) -> bool
    ensures { result ≡ looked_up count reach table.now sequence.now }
{
    sequence.len() <= reach.min(LONGEST) && entry_at(table, index_of(count, sequence)) != KEPT
}

// How long the shortest marked segment is that ends with move `end`.
fn shortest_at(count: u8, reach: usize, table: &[u8], moves: &[u8], end: usize) -> Option<u8>
    requires { end ≤ length moves.now }
    ensures { result ≡ place_if (shortest_at (looked_up count reach table.now) moves.now end) }
{
    // up to the place behind the last: a range that holds its last takes near twice as long, and so below
    for many in 1..reach.min(LONGEST).min(end) + 1 {
        if is_marked(count, reach, table, &moves[end - many..end]) {
            return Some(many as u8);
        }
    }
    None
}

// The marked segment that ends soonest, the shortest of those.
pub fn marked_segment(count: u8, reach: usize, table: &[u8], moves: &[u8]) -> Option<Segment>
    ensures { let marks = looked_up count reach table.now in
        result ≡ segment_if (soonest_end marks moves.now) (soonest_length marks moves.now) }
{
    for end in 1..moves.len() + 1 {
        if let Some(length) = shortest_at(count, reach, table, moves, end) {
            return Some(Segment { end, length });
        }
    }
    None
}

// A sequence in the form of a witness. Of a longer one the first three rules count.
fn three_of(sequence: &[u8]) -> Witness
    ensures { let witness = take 3 sequence.now in
        (result.length ≡ length witness)
        × (result.rules ≡ padded 3 0 witness) }
{
    let three = first_three(sequence);
    let mut rules = [0; LONGEST];
    rules[..three.len()].copy_from_slice(three);
    Witness {
        length: three.len() as u8,
        rules,
    }
}

// The sequence that the entry of a marked sequence names, as `sequences::sequence_at` has it.
pub fn witness_of(count: u8, table: &[u8], sequence: &[u8]) -> Witness
    ensures { let index = index_of count (take 3 sequence.now) in
        let witness = short_sequence count (entry_at table.now index) in
        (result.length ≡ length witness)
        × (result.rules ≡ padded 3 0 witness) }
{
    let index = index_of(count, sequence);
    let witness = sequence_at(count, entry_at(table, index));
    three_of(&witness.rules[witness.start..])
}
