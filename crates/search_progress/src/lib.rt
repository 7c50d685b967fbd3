// What visiting a sequence makes of the search's progress: one step more, and the best plan so far. And what the
// progress comes to: the outcome, and the floor.
#![tactic(auto)]

ghost use Rattle.std.specs.Prelude.{◌≡◌, take};
ghost use Rattle.model_spec.specs.Limits.{place_count};
ghost use Rattle.search_spec.specs.Query.{meets_goal};
ghost use Rattle.search_laws.specs.How.Visits.{replaces, noted_moves, outcome_of, floor_shown};

use model_spec::{MOVE_LIMIT, PLACE_COUNT};
use search_laws::{Plan, Progress};
use search_spec::ANY_VALUE;

// Whether a state meets the first sixteen bytes of the goal: 255 in the goal asks for nothing.
fn meets_goal(goal: &[u8], state: &[u8; PLACE_COUNT]) -> bool
    ensures { result ≡ meets_goal (take place_count goal.now) state.now }
{
    // a `for`: a search asks this of each sequence, and with a chain of `zip` and `all` it takes longer
    for i in 0..goal.len().min(PLACE_COUNT) {
        if goal[i] != ANY_VALUE {
            if state[i] != goal[i] {
                return false;
            }
        }
    }
    true
}

// Whether a plan of that cost and that many moves replaces the best so far: it is cheaper, or costs the same and is
// shorter. Of equals the first one met stays.
fn replaces(best: Option<Plan>, cost: u16, depth: u8) -> bool
    ensures { result ≡ replaces best cost depth }
{
    match best {
        None => true,
        Some(former) => cost < former.cost || cost == former.cost && depth < former.length,
    }
}

// Visits one sequence: the first `depth` moves of the plan, which have led to the state at that cost. At the limit it
// adds no step, tells that the limit is exceeded, and lowers the least cost met beyond it (`Progress`, in search_laws).
// A plan that replaces the best is kept with its whole array.
pub fn noted(
    goal: &[u8],
    step_limit: u32,
    state: &[u8; PLACE_COUNT],
    plan: &[u8; MOVE_LIMIT],
    depth: u8,
    cost: u16,
    progress: Progress,
) -> Progress
    ensures { result
        ≡ noted_moves (take place_count goal.now) step_limit cost depth
        plan.now state.now progress }
{
    let mut after = progress;
    if step_limit <= progress.steps {
        after.exceeded = true;
        after.least = progress.least.min(cost);
        return after;
    }
    after.steps += 1;
    after.exceeded = false;
    if meets_goal(goal, state) && replaces(progress.best, cost, depth) {
        after.best = Some(Plan {
            cost,
            length: depth,
            moves: *plan,
        });
    }
    after
}

// The outcome of a query that is not refused, by whether its limit is exceeded and whether a plan is found.
pub fn outcome_of(exceeded: bool, found: bool) -> u8
    ensures { result ≡ outcome_of exceeded found }
{
    match (exceeded, found) {
        (true, true) => 18,
        (true, false) => 16,
        (false, true) => 0,
        (false, false) => 15,
    }
}

// The floor shown beside a plan: over the limit the lower of the plan's cost and the least cost met beyond it; else 0.
pub fn floor_shown(exceeded: bool, cost: u16, least: u16) -> u16
    ensures { result ≡ floor_shown exceeded cost least }
{
    if exceeded { cost.min(least) } else { 0 }
}
