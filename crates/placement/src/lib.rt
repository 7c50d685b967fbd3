// Places of a line: how many values one has, whether an entry is within its limit, and whether a variable may stand
// there.
#![tactic(auto)]

ghost use Rattle.std.specs.Prelude.{◌≡◌, get_or};
ghost use Rattle.model_spec.specs.States.{width};
ghost use Rattle.model_spec.specs.Validity.{entry_limited, condition_placed, effect_placed};

use model_spec::{FIRST_VARIABLE, PLACE_COUNT};

// What a list holds at a place, and 0 beyond its sixteen places.
fn entry_at(list: &[u8; PLACE_COUNT], i: usize) -> u8
    ensures { result ≡ get_or list.now i 0 }
{
    list.get(i).copied().unwrap_or(0)
}

// How many values a place has: its size, and 1 beyond the positions.
pub fn width_at(positions: u8, sizes: &[u8; PLACE_COUNT], i: usize) -> u8
    ensures { result ≡ width positions sizes.now i }
{
    if i < positions as usize {
        entry_at(sizes, i)
    } else {
        1
    }
}

// Whether an entry at place i is within its limit: a constant below the size there, beyond the
// positions 0 alone, or the variable of a position.
pub fn entry_limited(positions: u8, sizes: &[u8; PLACE_COUNT], i: usize, entry: u8) -> bool
    ensures { result ≡ entry_limited positions sizes.now i entry }
{
    if entry < FIRST_VARIABLE {
        entry < width_at(positions, sizes, i)
    } else {
        entry - FIRST_VARIABLE < positions
    }
}

// Whether a variable may stand at place i of an effect: two values or more there, equal sizes, and itself at its own
// place of the condition. A constant always may.
pub fn effect_placed(
    positions: u8,
    sizes: &[u8; PLACE_COUNT],
    condition: &[u8; PLACE_COUNT],
    i: usize,
    entry: u8,
) -> bool
    ensures { result ≡ effect_placed positions sizes.now condition.now i entry }
{
    if entry < FIRST_VARIABLE {
        return true;
    }
    let width = width_at(positions, sizes, i);
    if width < 2 {
        return false;
    }
    let place = (entry - FIRST_VARIABLE) as usize;
    if width_at(positions, sizes, place) != width {
        return false;
    }
    entry_at(condition, place) == entry
}

// Whether a variable may stand at place i of a condition: as in an effect, and its own place not later. A constant
// always may.
pub fn condition_placed(
    positions: u8,
    sizes: &[u8; PLACE_COUNT],
    condition: &[u8; PLACE_COUNT],
    i: usize,
    entry: u8,
) -> bool
    ensures { result ≡ condition_placed positions sizes.now condition.now i entry }
{
    if entry < FIRST_VARIABLE {
        return true;
    }
    let place = (entry - FIRST_VARIABLE) as usize;
    if i < place {
        return false;
    }
    effect_placed(positions, sizes, condition, i, entry)
}
