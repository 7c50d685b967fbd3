// The unused rule and the empty set: what stands where nothing was read.
#![tactic(auto)]

ghost use Rattle.std.specs.Prelude.{◌≡◌};
ghost use Rattle.model_spec.specs.Rules.{blank_rule, empty_set};

use model_spec::{PLACE_COUNT, RULE_PLACES, Rule, RuleSet};

// An unused rule.
pub fn blank_rule() -> Rule
    ensures { result ≡ blank_rule }
{
    Rule {
        cost: 0,
        condition: [0; PLACE_COUNT],
        effect: [0; PLACE_COUNT],
    }
}

// The set with 0 positions and 0 rules, zero throughout.
pub fn empty_set() -> RuleSet
    ensures { result ≡ empty_set }
{
    let blank = blank_rule();
    RuleSet {
        positions: 0,
        sizes: [0; PLACE_COUNT],
        count: 0,
        rules: [blank; RULE_PLACES],
    }
}
