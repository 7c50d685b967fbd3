// Whether a rule set is valid.
#![tactic(auto)]

ghost use Rattle.std.specs.Prelude.{true, ◌↔◌, ◌≡◌, ◌<◌};
ghost use Rattle.theory_spec.specs.Lists.{within};
ghost use Rattle.model_spec.specs.Limits.{place_count, max_rules};
ghost use Rattle.model_spec.specs.Validity.{size_valid, sizes_valid, rule_blank, rule_valid_at, rules_valid};
ghost use Rattle.model_spec.specs.Validity.{well_formed, valid, Valid};

use blanks::blank_rule;
use duplicates::has_duplicates;
use model_spec::{MAX_POSITIONS, MAX_RULES, MAX_SIZE, PLACE_COUNT, RULE_PLACES, Rule, RuleSet};
use rule_validity::rule_valid;

// Whether `number` is one from `least` to `most`.
fn in_range(least: u8, most: u8, number: u8) -> bool
    ensures { result ≡ within least most number }
{
    (least..=most).contains(&number)
}

// Whether the size at place i is 1 to 16 for a position, and 0 beyond.
fn size_valid(positions: u8, sizes: &[u8; PLACE_COUNT], i: usize) -> bool
    requires { i < place_count }
    ensures { result ≡ size_valid positions sizes.now i }
{
    if i < positions as usize {
        in_range(1, MAX_SIZE, sizes[i])
    } else {
        sizes[i] == 0
    }
}

// Whether every size is valid.
fn sizes_valid(positions: u8, sizes: &[u8; PLACE_COUNT]) -> bool
    ensures { result ≡ sizes_valid positions sizes.now }
{
    (0..PLACE_COUNT).all(|i| size_valid(positions, sizes, i))
}

// Whether a rule is zero throughout, as an unused one has to be.
fn rule_blank(rule: Rule) -> bool
    ensures { result ≡ rule_blank rule }
{
    rule == blank_rule()
}

// Whether the rule at place k is valid, where it is used, or zero throughout.
fn rule_valid_at(set: &RuleSet, k: usize) -> bool
    requires { k < max_rules }
    ensures { result ≡ rule_valid_at set.now k }
{
    if k < set.count as usize {
        rule_valid(set.positions, &set.sizes, set.rules[k])
    } else {
        rule_blank(set.rules[k])
    }
}

// Whether every rule is valid at its place.
fn rules_valid(set: RuleSet) -> bool
    ensures { result ≡ rules_valid set }
{
    (0..RULE_PLACES).all(|k| rule_valid_at(&set, k))
}

// Whether a set is valid but for duplicates.
fn well_formed(set: RuleSet) -> bool
    ensures { result ≡ well_formed set }
{
    in_range(1, MAX_POSITIONS, set.positions)
        && sizes_valid(set.positions, &set.sizes)
        && in_range(1, MAX_RULES, set.count)
        && rules_valid(set)
}

// Whether a set is valid: every number within its limit, every variable in place, no duplicates, and zero in every
// unused place.
pub fn is_valid(set: RuleSet) -> bool
    ensures { (result ≡ valid set)
        × ((result ≡ true) ↔ Valid set) }
{
    well_formed(set) && !has_duplicates(set)
}
