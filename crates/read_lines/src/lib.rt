// Lines of a rule file, each read at the front of a text: a key, and one number or a list of items.
#![tactic(auto)]

ghost use Rattle.std.specs.Prelude.{◌≡◌, ◌≤◌, ◌<◌, min, take};
ghost use Rattle.model_spec.specs.Limits.{max_positions, place_count};
ghost use Rattle.reader_laws.specs.How.Found.{read_as};
ghost use Rattle.reader_laws.specs.How.Parts.{keyed_number, keyed_list, item_of};

use model_spec::{MAX_POSITIONS, MAX_SIZE, PLACE_COUNT};
use read_entries::{condition_item, effect_item};
use read_items::{number_within, word};
use reader_laws::Line;
use refusals_spec::Refusal;
use separators::ending;

// A line with a key and one number.
pub fn number_line<'a>(
    text: &'a [u8],
    key: &[u8],
    least: u8,
    most: u8,
) -> Result<(u8, &'a [u8]), Refusal>
    ensures { keyed_number key.now least most text.now ≡ read_as result }
{
    number_within(word(text, key)?, least, most, b'\n')
}

// An item of a line that lists them, at place i after those before it.
// A match and no closure for each kind: a function that takes one requires that it may be called, and no `pub fn` of
// this repository has a `requires`.
fn list_item(
    text: &[u8],
    line: Line,
    positions: u8,
    before: [u8; PLACE_COUNT],
    i: usize,
    end: u8,
) -> Result<(u8, &[u8]), Refusal>
    requires { (positions ≤ max_positions) × (i < place_count) }
    ensures { item_of line positions (take i before) end text.now ≡ read_as result }
{
    match line {
        Line::Sizes => number_within(text, 1, MAX_SIZE, end),
        Line::Condition { sizes } => condition_item(text, positions, &sizes, before, i, end),
        Line::Effect { sizes, condition } => {
            effect_item(text, positions, &sizes, &condition, i, end)
        }
    }
}

// A line with a key and a list of items, one for each of at most sixteen positions.
pub fn list_line<'a>(
    text: &'a [u8],
    key: &[u8],
    line: Line,
    positions: u8,
) -> Result<([u8; PLACE_COUNT], &'a [u8]), Refusal>
    ensures { let count = min positions max_positions in
        keyed_list key.now (item_of line count) count text.now ≡ read_as result }
{
    let held = positions.min(MAX_POSITIONS);
    let count = held as usize;
    let mut rest = word(text, key)?;
    let mut entries = [0; PLACE_COUNT];
    for i in 0..count {
        let (value, after) = list_item(rest, line, held, entries, i, ending(count - 1 - i))?;
        entries[i] = value;
        rest = after;
    }
    Ok((entries, rest))
}
