// What is judged of a query before any sequence is visited.
#![tactic(auto)]

ghost use Rattle.std.specs.Prelude.{◌≡◌, ℕ, ◌≤◌};
ghost use Rattle.model_spec.specs.Limits.{max_positions};
ghost use Rattle.model_spec.specs.Refusals.{first_refusal};
ghost use Rattle.search_spec.specs.Query.{asked, start_fits, goal_fits};
ghost use Rattle.search_spec.specs.Searched.{query_causes};
ghost use Rattle.refusals_spec.specs.Numbers.{outcome_number};

use acceptance::check_outcome;
use model_spec::{MOVE_LIMIT, RuleSet};
use refusals_spec::Refusal;
use search_spec::{ANY_VALUE, Query};

// Whether a start has one byte for each position, each below its size.
fn start_fits(set: RuleSet, start: &[u8]) -> bool
    requires { set.positions ≤ max_positions }
    ensures { result ≡ start_fits set start.now }
{
    start.len() == set.positions as usize
        && start
            .iter()
            .zip(&set.sizes)
            .all(|(value, size)| value < size)
}

// Whether a goal has one byte for each position, each below its size or 255.
fn goal_fits(set: RuleSet, goal: &[u8]) -> bool
    requires { set.positions ≤ max_positions }
    ensures { result ≡ goal_fits set goal.now }
{
    goal.len() == set.positions as usize
        && goal
            .iter()
            .zip(&set.sizes)
            .all(|(value, size)| *value == ANY_VALUE || value < size)
}

// The first cause for which a query is refused, whatever its cost bound and its step limit are. The table is checked
// first, but that it is not accepted waits for the query's own causes.
pub fn query_refusal(set: RuleSet, query: Query<'_>, plan_size: usize) -> Result<(), Refusal>
    ensures { (max_cost step_limit : ℕ)
        → let q = query.entry in
        let asked = asked q.reach q.table.now q.start.now q.goal.now q.max_moves max_cost step_limit in
        outcome_number result ≡ first_refusal (query_causes set asked plan_size) }
{
    let checked = check_outcome(set, query.reach, query.table);
    match checked {
        5 => return Err(Refusal::Reach),
        6 => return Err(Refusal::TableLength),
        7 => return Err(Refusal::RuleSet),
        _ => {}
    }
    if !start_fits(set, query.start) {
        return Err(Refusal::Start);
    }
    if !goal_fits(set, query.goal) {
        return Err(Refusal::Goal);
    }
    if query.max_moves > MOVE_LIMIT {
        return Err(Refusal::Moves);
    }
    if query.max_moves > plan_size {
        return Err(Refusal::PlanRoom);
    }
    if checked == 14 {
        return Err(Refusal::Table);
    }
    Ok(())
}
