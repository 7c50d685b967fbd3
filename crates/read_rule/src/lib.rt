// The lines of a rule, read at the front of a text: its cost, its condition and its effect.
#![tactic(auto)]

ghost use Rattle.std.specs.Prelude.{◌≡◌, min};
ghost use Rattle.model_spec.specs.Limits.{max_positions};
ghost use Rattle.files_spec.specs.Reading.{rule_lines};
ghost use Rattle.reader_laws.specs.How.Found.{read_as};

use model_spec::{MAX_RULE_COST, PLACE_COUNT, Rule};
use read_lines::{list_line, number_line};
use reader_laws::Line;
use refusals_spec::Refusal;

// The lines of a rule over at most sixteen positions.
pub fn rule_lines(
    text: &[u8],
    positions: u8,
    sizes: [u8; PLACE_COUNT],
) -> Result<(Rule, &[u8]), Refusal>
    ensures { rule_lines (min positions max_positions) sizes text.now ≡ read_as result }
{
    let (cost, rest) = number_line(text, b"cost=", 0, MAX_RULE_COST)?;
    let (condition, rest) = list_line(rest, b"if=", Line::Condition { sizes }, positions)?;
    let line = Line::Effect { sizes, condition };
    let (effect, rest) = list_line(rest, b"then=", line, positions)?;
    let rule = Rule {
        cost,
        condition,
        effect,
    };
    Ok((rule, rest))
}
