// All lines of a rule file, read from its start: the positions, the sizes, the number of rules, and each rule's own.
#![tactic(auto)]

ghost use Rattle.std.specs.Prelude.{◌≡◌, ◌≤◌};
ghost use Rattle.model_spec.specs.Limits.{max_positions, max_rules};
ghost use Rattle.files_spec.specs.Reading.{rule_list, file_lines};
ghost use Rattle.reader_laws.specs.How.Found.{read_as};

use blanks::blank_rule;
use model_spec::{MAX_POSITIONS, MAX_RULES, PLACE_COUNT, RULE_PLACES, Rule, RuleSet};
use read_lines::{list_line, number_line};
use read_rule::rule_lines;
use reader_laws::Line;
use refusals_spec::Refusal;

// The lines of so many rules.
fn rule_list(
    text: &[u8],
    positions: u8,
    sizes: [u8; PLACE_COUNT],
    count: u8,
) -> Result<([Rule; RULE_PLACES], &[u8]), Refusal>
    requires { (positions ≤ max_positions) × (count ≤ max_rules) }
    ensures { rule_list positions sizes count text.now ≡ read_as result }
{
    let mut rules = [blank_rule(); RULE_PLACES];
    let mut rest = text;
    for k in 0..count as usize {
        let (rule, after) = rule_lines(rest, positions, sizes)?;
        rules[k] = rule;
        rest = after;
    }
    Ok((rules, rest))
}

// All lines of the file.
pub fn file_lines(text: &[u8]) -> Result<(RuleSet, &[u8]), Refusal>
    ensures { file_lines text.now ≡ read_as result }
{
    let (positions, rest) = number_line(text, b"positions=", 1, MAX_POSITIONS)?;
    let (sizes, rest) = list_line(rest, b"sizes=", Line::Sizes, positions)?;
    let (count, rest) = number_line(rest, b"rules=", 1, MAX_RULES)?;
    let (rules, rest) = rule_list(rest, positions, sizes, count)?;
    let set = RuleSet {
        positions,
        sizes,
        count,
        rules,
    };
    Ok((set, rest))
}
