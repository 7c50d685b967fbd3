// The positions with two values or more, as a set.
#![tactic(auto)]

ghost use Rattle.std.specs.Prelude.{◌≡◌};
ghost use Rattle.macros_spec.specs.How.Touching.{wide_positions};

use model_spec::{PLACE_COUNT, RuleSet};
use placement::width_at;

// The positions with two values or more.
pub fn wide_positions(set: RuleSet) -> u16
    ensures { result ≡ wide_positions set }
{
    (0..PLACE_COUNT).fold(0, |wide, k| {
        let width = width_at(set.positions, &set.sizes, k);
        if 1 < width { wide | 1 << k } else { wide }
    })
}
