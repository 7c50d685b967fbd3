// A sequence given as moves, the numbers of rules: whether each is one, the rule of a number, and the sequence's cost.
#![tactic(auto)]

ghost use Rattle.std.specs.Prelude.{◌≡◌, not, ◌-◌, min};
ghost use Rattle.theory_spec.specs.Lists.{any, within};
ghost use Rattle.model_spec.specs.Limits.{max_rules};
ghost use Rattle.model_spec.specs.Rules.{rule_at, sequence_cost};

use model_spec::{MAX_RULES, Rule, RuleSet};

// One more than a `u16` holds: what a dearer sequence is said to cost. No `Option`: the contract of `cost_of` says so.
const MORE_THAN_U16: u32 = 65536;

// Whether some move is no number from 1 to `count`.
pub fn has_unknown_move(count: u8, moves: &[u8]) -> bool
    ensures { result ≡ any (λ n. not (within 1 count n)) moves.now }
{
    moves.iter().any(|number| !(1..=count).contains(number))
}

// The place of a number's rule among the 31 of a set: the first for 0, the last for a number above 31.
fn place_of(number: u8) -> usize
    ensures { result ≡ min number max_rules - 1 }
{
    number.min(MAX_RULES).saturating_sub(1) as usize
}

// The rule of a number; that of 1 for 0, and that of 31 for a larger number.
pub fn rule_at(set: RuleSet, number: u8) -> Rule
    ensures { result ≡ rule_at set (min number max_rules) }
{
    set.rules[place_of(number)]
}

// What the rule of a number costs: as that of 1 for 0, and nothing above 31.
pub fn cost_at(set: RuleSet, number: u8) -> u8
    ensures { result ≡ (rule_at set number).cost }
{
    if number <= MAX_RULES {
        rule_at(set, number).cost
    } else {
        0
    }
}

// What a sequence costs, but 65,536 where it costs more than that.
pub fn cost_of(set: RuleSet, moves: &[u8]) -> u32
    ensures { result ≡ min (sequence_cost set moves.now) 65536 }
{
    let mut total = 0;
    for number in moves {
        total += u32::from(cost_at(set, *number));
        if MORE_THAN_U16 < total {
            return MORE_THAN_U16;
        }
    }
    total
}
