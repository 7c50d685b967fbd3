// What a call leaves that is refused before its query is judged.
#![tactic(auto)]

ghost use Rattle.std.specs.Prelude.{◌≡◌, length};
ghost use Rattle.search_spec.specs.Searched.{refused_search};

use search_spec::{Answer, NO_MOVE};

// The outcome alone, and a blank plan buffer.
pub fn refused_search(outcome: u8, plan: &mut [u8]) -> Answer
    ensures { refused_search outcome (length plan.old) ≡ record { answer = result; plan = plan.new } }
{
    plan.fill(NO_MOVE);
    Answer {
        outcome,
        cost: 0,
        length: 0,
        steps: 0,
        floor: 0,
    }
}
