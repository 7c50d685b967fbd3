// The bytes of a macro and of the positions that it reads and writes.
#![tactic(auto)]

ghost use Rattle.std.specs.Prelude.{◌≡◌, ◌++◌};
ghost use Rattle.tables_spec.specs.Table.{entry_bytes};
ghost use Rattle.planner_spec.specs.TextMacro.{macro_bytes};

use macros_spec::{Macro, Touched};
use model_spec::PLACE_COUNT;

// How many bytes a macro has: the entries of two vectors, and three numbers.
const MACRO_SIZE: usize = 2 * PLACE_COUNT + 6;

// The cost, the positions read and the positions written in two bytes each, low byte first.
fn number_bytes(cost: u16, touched: Touched) -> [u8; 6]
    ensures { result ≡ entry_bytes cost ++ (entry_bytes touched.reads ++ entry_bytes touched.writes) }
{
    let cost = cost.to_le_bytes();
    let reads = touched.reads.to_le_bytes();
    let writes = touched.writes.to_le_bytes();
    [cost[0], cost[1], reads[0], reads[1], writes[0], writes[1]]
}

// The bytes of a macro: condition, effect, cost and both sets.
pub fn macro_bytes(m: Macro, touched: Touched) -> [u8; MACRO_SIZE]
    ensures { result ≡ macro_bytes m touched }
{
    let mut bytes = [0u8; MACRO_SIZE];
    let (condition, rest) = bytes.split_at_mut(PLACE_COUNT);
    let (effect, numbers) = rest.split_at_mut(PLACE_COUNT);
    condition.copy_from_slice(&m.condition);
    effect.copy_from_slice(&m.effect);
    numbers.copy_from_slice(&number_bytes(m.cost, touched));
    bytes
}
