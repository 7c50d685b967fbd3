// The entries of a rule's lines, each read at the front of a text and judged for its limit and its place.
// A set has at most 16 positions: a variable above 16 is outside its limit, whatever number is given.
#![tactic(auto)]

ghost use Rattle.std.specs.Prelude.{◌≡◌, min, set};
ghost use Rattle.model_spec.specs.Limits.{max_positions};
ghost use Rattle.files_spec.specs.Reading.{variable, constant, entry};
ghost use Rattle.reader_laws.specs.How.Found.{read_as};
ghost use Rattle.reader_laws.specs.How.Parts.{condition_entry, effect_entry};

use model_spec::{MAX_POSITIONS, PLACE_COUNT};
use placement::{condition_placed, effect_placed};
use read_items::{number, number_within};
use refusals_spec::Refusal;

// A variable: the number of one of the positions, after the letter.
fn variable(text: &[u8], positions: u8, ending: u8) -> Result<(u8, &[u8]), Refusal>
    ensures { variable (min positions max_positions) ending text.now ≡ read_as result }
{
    let (position, rest) = number_within(text, 1, positions.min(MAX_POSITIONS), ending)?;
    Ok((15 + position, rest))
}

// A constant below the size.
fn constant(text: &[u8], size: u8, ending: u8) -> Result<(u8, &[u8]), Refusal>
    ensures { constant size ending text.now ≡ read_as result }
{
    let (value, rest) = number(text, ending)?;
    if value >= u16::from(size) {
        return Err(Refusal::Limit);
    }
    Ok((value as u8, rest))
}

// An entry at place i: `x` and a position number, or a constant. Beyond the sixteen places the size is 0.
fn entry<'a>(
    text: &'a [u8],
    positions: u8,
    sizes: &[u8; PLACE_COUNT],
    i: usize,
    ending: u8,
) -> Result<(u8, &'a [u8]), Refusal>
    ensures { entry (min positions max_positions) sizes.now i ending text.now ≡ read_as result }
{
    if let Some(number) = text.strip_prefix(b"x") {
        return variable(number, positions, ending);
    }
    constant(text, sizes.get(i).copied().unwrap_or(0), ending)
}

// The entries with another at place i, as they were where i is no place: `set` of the contract says both.
fn with_entry(mut entries: [u8; PLACE_COUNT], i: usize, value: u8) -> [u8; PLACE_COUNT]
    ensures { result ≡ set entries i value }
{
    if i < PLACE_COUNT {
        entries[i] = value;
    }
    entries
}

// An entry of an `if` line, at place i after those before it.
pub fn condition_item<'a>(
    text: &'a [u8],
    positions: u8,
    sizes: &[u8; PLACE_COUNT],
    before: [u8; PLACE_COUNT],
    i: usize,
    end: u8,
) -> Result<(u8, &'a [u8]), Refusal>
    ensures { condition_entry positions sizes.now before i end text.now ≡ read_as result }
{
    let (value, rest) = entry(text, positions, sizes, i, end)?;
    if !condition_placed(positions, sizes, &with_entry(before, i, value), i, value) {
        return Err(Refusal::Place);
    }
    Ok((value, rest))
}

// An entry of a `then` line, at place i after this condition.
pub fn effect_item<'a>(
    text: &'a [u8],
    positions: u8,
    sizes: &[u8; PLACE_COUNT],
    condition: &[u8; PLACE_COUNT],
    i: usize,
    end: u8,
) -> Result<(u8, &'a [u8]), Refusal>
    ensures { effect_entry positions sizes.now condition.now i end text.now ≡ read_as result }
{
    let (value, rest) = entry(text, positions, sizes, i, end)?;
    if !effect_placed(positions, sizes, condition, i, value) {
        return Err(Refusal::Place);
    }
    Ok((value, rest))
}
