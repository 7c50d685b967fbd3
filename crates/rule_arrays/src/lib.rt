// The lines and costs of a set's rules as arrays, to be lent.
#![tactic(auto)]

ghost use Rattle.std.specs.Prelude.{◌≡◌, map};

use model_spec::{PLACE_COUNT, RULE_PLACES, RuleSet};

// no `map`: for arrays of this size it is compiled to code that clears and copies whole arrays several times, and each
// search calls these

// The conditions of all rules, to be lent.
pub fn conditions_of(set: RuleSet) -> [[u8; PLACE_COUNT]; RULE_PLACES]
    ensures { result ≡ map (λ rule. rule.condition) set.rules }
{
    let mut conditions = [[0; PLACE_COUNT]; RULE_PLACES];
    for i in 0..RULE_PLACES {
        conditions[i] = set.rules[i].condition;
    }
    conditions
}

// The effects of all rules.
pub fn effects_of(set: RuleSet) -> [[u8; PLACE_COUNT]; RULE_PLACES]
    ensures { result ≡ map (λ rule. rule.effect) set.rules }
{
    let mut effects = [[0; PLACE_COUNT]; RULE_PLACES];
    for j in 0..RULE_PLACES {
        effects[j] = set.rules[j].effect;
    }
    effects
}

// The costs of all rules.
pub fn costs_of(set: RuleSet) -> [u8; RULE_PLACES]
    ensures { result ≡ map (λ rule. rule.cost) set.rules }
{
    let mut costs = [0; RULE_PLACES];
    for k in 0..RULE_PLACES {
        costs[k] = set.rules[k].cost;
    }
    costs
}
