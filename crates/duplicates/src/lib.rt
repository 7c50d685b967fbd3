// Whether a set has duplicates (documents 01 and 02: twins): two rules with equal costs, conditions and effects.
#![tactic(auto)]

ghost use Rattle.std.specs.Prelude.{◌≡◌, min, ◌<◌};
ghost use Rattle.model_spec.specs.Limits.{max_rules};
ghost use Rattle.model_spec.specs.Validity.{repeated, has_duplicates};

use model_spec::{MAX_RULES, RULE_PLACES, Rule, RuleSet};

// Whether the rule at place k is a duplicate of an earlier one.
fn repeated(rules: &[Rule; RULE_PLACES], k: usize) -> bool
    requires { k < max_rules }
    ensures { result ≡ repeated rules.now k }
{
    let rule = rules[k];
    rules[..k].iter().any(|earlier| *earlier == rule)
}

// Whether some of the used rules are duplicates. A set has places for 31 rules, whatever its number of rules.
pub fn has_duplicates(set: RuleSet) -> bool
    ensures { result ≡ has_duplicates set.rules (min set.count max_rules) }
{
    let count = set.count.min(MAX_RULES) as usize;
    (0..count).any(|k| repeated(&set.rules, k))
}
