// The positions that a sequence reads and writes, as two sets, from its vectors.
#![tactic(auto)]

ghost use Rattle.std.specs.Prelude.{◌≡◌, not, cond, ◌&&◌, ℕ, ◌<◌, ◌^◌, eqb, get_or};
ghost use Rattle.theory_spec.specs.Sets.{has, set_of};
ghost use Rattle.model_spec.specs.Limits.{place_count};
ghost use Rattle.macros_spec.specs.Composition.{lines_of};
ghost use Rattle.macros_spec.specs.Touched.{names, named_elsewhere};
ghost use Rattle.macros_spec.specs.How.Touching.{touched_within};

use macros_spec::{Touched, Vectors};
use model_spec::{FIRST_VARIABLE, MAX_POSITIONS, PLACE_COUNT};

// The position that an entry names, as a set, if the entry stands at another place; else none. A function of its own,
// so that the loop over a line is compiled without branches: the check of a table runs it twice for a mark.
fn named_by(entry: u8, place: usize) -> u16
    ensures { (result < 2 ^ place_count)
        × ((i : ℕ) → has result i ≡ (not (eqb place i) && names entry i)) }
{
    let named = entry % MAX_POSITIONS;
    if entry < FIRST_VARIABLE {
        return 0;
    }
    if named as usize == place {
        return 0;
    }
    1u16 << named
}

// The positions that entries of a line at other places name.
fn named_elsewhere(line: &[u8; PLACE_COUNT]) -> u16
    ensures { result ≡ set_of (named_elsewhere line.now) place_count }
{
    (0..PLACE_COUNT).fold(0, |named, k| named | named_by(line[k], k))
}

// The position of a place, as a set, if the entry there is not its own variable; else none.
fn asked_at(entry: u8, place: usize) -> u16
    requires { place < place_count }
    ensures { result ≡ cond (names entry place) 0 (2 ^ place) }
{
    let named = entry % MAX_POSITIONS;
    if entry < FIRST_VARIABLE {
        return 1u16 << place;
    }
    if named as usize != place {
        return 1u16 << place;
    }
    0
}

// The positions of which a condition asks something: their entry is not their own variable.
fn asked(condition: &[u8; PLACE_COUNT]) -> u16
    ensures { result ≡ set_of (λ i. not (names (get_or condition.now i 0) i)) place_count }
{
    (0..PLACE_COUNT).fold(0, |found, k| found | asked_at(condition[k], k))
}

// The position of a place, as a set, if the two entries there differ; else none.
fn changed_at(first: u8, last: u8, place: usize) -> u16
    requires { place < place_count }
    ensures { result ≡ cond (eqb first last) 0 (2 ^ place) }
{
    if first == last { 0 } else { 1 << place }
}

// The positions whose two entries differ.
fn changed(condition: &[u8; PLACE_COUNT], effect: &[u8; PLACE_COUNT]) -> u16
    ensures { let first = condition.now in
        let last = effect.now in
        result ≡ set_of (λ i. not (eqb (get_or first i 0) (get_or last i 0))) place_count }
{
    (0..PLACE_COUNT).fold(
        0,
        |differ, k| differ | changed_at(condition[k], effect[k], k),
    )
}

// What vectors read and write among the positions of `wide`; nothing where no state admits the sequence.
pub fn touched(wide: u16, vectors: Vectors) -> Touched
    ensures { result ≡ touched_within wide (lines_of vectors) }
{
    if !vectors.admitted {
        return Touched {
            reads: 0,
            writes: 0,
        };
    }
    let named = named_elsewhere(&vectors.condition) | named_elsewhere(&vectors.effect);
    let read = asked(&vectors.condition) | named;
    let written = changed(&vectors.condition, &vectors.effect);
    Touched {
        reads: wide & read,
        writes: wide & written,
    }
}
