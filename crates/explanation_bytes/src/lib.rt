// The bytes of an explanation.
#![tactic(auto)]

ghost use Rattle.std.specs.Prelude.{◌≡◌};
ghost use Rattle.planner_spec.specs.TextExplain.{explanation_bytes, number_bytes};

use explain_spec::Explanation;

// A number in eight bytes, low byte first.
fn eight_bytes(number: usize) -> [u8; 8]
    ensures { result ≡ number_bytes 7 number }
{
    (number as u64).to_le_bytes()
}

// The nineteen bytes of an explanation: reason, place, both costs, the segment's end and length, the witness's length
// and its rules.
pub fn explanation_bytes(answer: Explanation) -> [u8; 19]
    ensures { result ≡ explanation_bytes answer }
{
    let cost = answer.cost.to_le_bytes();
    let plan_cost = answer.plan_cost.to_le_bytes();
    let end = eight_bytes(answer.segment_end);
    let witness = answer.witness;
    [
        answer.reason,
        answer.place,
        cost[0],
        cost[1],
        plan_cost[0],
        plan_cost[1],
        end[0],
        end[1],
        end[2],
        end[3],
        end[4],
        end[5],
        end[6],
        end[7],
        answer.segment_length,
        answer.witness_length,
        witness[0],
        witness[1],
        witness[2],
    ]
}
