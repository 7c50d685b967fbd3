// Whether a rule of a set is valid: every entry of its two lines within its limit and in place.
#![tactic(auto)]

ghost use Rattle.std.specs.Prelude.{◌≡◌};
ghost use Rattle.model_spec.specs.Validity.{condition_valid, effect_valid, rule_valid};

use model_spec::{PLACE_COUNT, Rule};
use placement::{condition_placed, effect_placed, entry_limited};

// Whether every entry of a condition is valid. One function with the test as a parameter would be longer than the two.
fn condition_valid(positions: u8, sizes: &[u8; PLACE_COUNT], condition: &[u8; PLACE_COUNT]) -> bool
    ensures { result ≡ condition_valid positions sizes.now condition.now }
{
    (0..PLACE_COUNT).all(|i| {
        let entry = condition[i];
        entry_limited(positions, sizes, i, entry)
            && condition_placed(positions, sizes, condition, i, entry)
    })
}

// Whether every entry of an effect is valid, after this condition.
fn effect_valid(
    positions: u8,
    sizes: &[u8; PLACE_COUNT],
    condition: &[u8; PLACE_COUNT],
    effect: &[u8; PLACE_COUNT],
) -> bool
    ensures { result ≡ effect_valid positions sizes.now condition.now effect.now }
{
    (0..PLACE_COUNT).all(|i| {
        let entry = effect[i];
        entry_limited(positions, sizes, i, entry)
            && effect_placed(positions, sizes, condition, i, entry)
    })
}

// Whether both lines of a rule are valid. Every cost is: a byte is at most 255.
pub fn rule_valid(positions: u8, sizes: &[u8; PLACE_COUNT], rule: Rule) -> bool
    ensures { result ≡ rule_valid positions sizes.now rule }
{
    condition_valid(positions, sizes, &rule.condition)
        && effect_valid(positions, sizes, &rule.condition, &rule.effect)
}
