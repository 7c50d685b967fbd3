// What the reasons against a proposal name: the first move that fails, the first that passes the cost bound, the lowest
// wrong position.
#![tactic(auto)]

ghost use Rattle.std.specs.Prelude.{◌≡◌, ◌≢◌, MatchResult, take};
ghost use Rattle.std.proofs.Math.Option.{some};
ghost use Rattle.model_spec.specs.Limits.{place_count};
ghost use Rattle.model_spec.specs.Rules.{run_in};
ghost use Rattle.explain_spec.specs.Reasons.{failing_move, costly_move, wrong_position};
ghost use Rattle.explain_laws.specs.How.Proposals.{held_moves, place_if};

use model_spec::{PLACE_COUNT, RuleSet};
use moves::{cost_at, rule_at};
use search_spec::ANY_VALUE;
use states::{after, runs};

// The end of a sequence that can be run; of another, the first move, from 1, up to which it cannot. A number above 31
// counts as 31.
pub fn run_of(
    set: RuleSet,
    start: &[u8; PLACE_COUNT],
    moves: &[u8],
) -> Result<[u8; PLACE_COUNT], usize>
    ensures { let sequence = held_moves moves.now in
        MatchResult result
        (λ end. (failing_move set start.now sequence ≡ 0) × (run_in set sequence start.now ≡ some end))
        (λ move. (move ≡ failing_move set start.now sequence) × (move ≢ 0)) }
{
    let mut state = *start;
    for (i, number) in moves.iter().enumerate() {
        let rule = rule_at(set, *number);
        if !runs(&rule.condition, &state) {
            return Err(i + 1);
        }
        state = after(&rule.effect, &state);
    }
    Ok(state)
}

// The first move, from 1, up to which a sequence costs more than a bound.
pub fn costly_move(set: RuleSet, max_cost: u16, moves: &[u8]) -> Option<usize>
    ensures { result ≡ place_if (costly_move set max_cost moves.now) }
{
    let mut total: u32 = 0;
    for (i, number) in moves.iter().enumerate() {
        total += u32::from(cost_at(set, *number));
        if u32::from(max_cost) < total {
            return Some(i + 1);
        }
    }
    None
}

// The lowest position, from 1, at which a state is not what the goal asks for. Of the goal the first sixteen bytes
// count.
pub fn wrong_position(goal: &[u8], state: &[u8; PLACE_COUNT]) -> Option<usize>
    ensures { result ≡ place_if (wrong_position (take place_count goal.now) state.now) }
{
    goal.iter()
        .zip(state)
        .position(|(asked, held)| *asked != ANY_VALUE && held != asked)
        .map(|i| i + 1)
}
