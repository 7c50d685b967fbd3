// The visits (document 01: the walk): a query is judged, and if it is not refused, its sequences are visited by a
// function that calls itself for each extension of a sequence. What stays the same all through is lent; steps and best
// plan pass through by value.
#![tactic(auto)]

ghost use Rattle.std.specs.Prelude.{◌≡◌, IfOk, take};
ghost use Rattle.model_spec.specs.Refusals.{first_refusal};
ghost use Rattle.search_spec.specs.Query.{query_of};
ghost use Rattle.search_spec.specs.Searched.{query_causes};
ghost use Rattle.refusals_spec.specs.Numbers.{outcome_number};
ghost use Rattle.search_laws.specs.How.Visits.{Lent, Reached, visits_from, whole_progress};

use lookup::{first_place, lookup_of};
use model_spec::{MOVE_LIMIT, PLACE_COUNT, RULE_PLACES, RuleSet};
use queries::query_refusal;
use refusals_spec::Refusal;
use rule_arrays::{conditions_of, costs_of, effects_of};
use search_laws::{Limits, Progress};
use search_progress::noted;
use search_spec::{NO_MOVE, Query};
use search_states::{goes_on, put_after, start_state};

// The least cost beyond the limit while no sequence there is met: no cost is larger.
const TOP_COST: u16 = 65535;

// What is lent all through a search: the rules' lines and costs, the look-up, the goal and the limits.
#[derive(Clone, Copy)]
struct Task<'a> {
    conditions: &'a [[u8; PLACE_COUNT]; RULE_PLACES],
    effects: &'a [[u8; PLACE_COUNT]; RULE_PLACES],
    costs: &'a [u8; RULE_PLACES],
    blocked: &'a [u8; 30784],
    goal: &'a [u8],
    limits: Limits,
}

// Visits a sequence and all that extends it by at most `left` moves: the first `depth` moves of the plan, which have
// led to the state at that cost. Beyond the limit it extends no sequence.
fn visit_from(
    task: &Task<'_>,
    state: &[u8; PLACE_COUNT],
    plan: &[u8; MOVE_LIMIT],
    depth: u8,
    cost: u16,
    left: usize,
    progress: Progress,
) -> Progress
    requires { let lent = task.now in
        Lent lent.conditions.now lent.effects.now lent.goal.now lent.limits
        × Reached lent.costs.now lent.limits state.now plan.now depth cost left }
    ensures { let lent = task.now in
        result ≡ visits_from lent.conditions.now lent.effects.now lent.costs.now lent.blocked.now
        lent.goal.now lent.limits left (take depth plan.now) state.now progress }
{
    let limits = task.limits;
    // most sequences are of this kind: what they make of the progress goes straight to the caller
    if left == 0 {
        return noted(
            task.goal,
            limits.step_limit,
            state,
            plan,
            depth,
            cost,
            progress,
        );
    }
    let mut carried = noted(
        task.goal,
        limits.step_limit,
        state,
        plan,
        depth,
        cost,
        progress,
    );
    // what extends a sequence beyond the limit costs no less
    if carried.exceeded {
        return carried;
    }
    let first = first_place(limits.reach, limits.count as u8, plan, depth);
    let end = depth as usize;
    let mut longer = *plan;
    for k in 0..limits.count {
        let total = cost as u32 + task.costs[k] as u32;
        if goes_on(
            &limits,
            task.blocked[first + k],
            total,
            &task.conditions[k],
            state,
        ) {
            let mut next = [0u8; PLACE_COUNT];
            put_after(limits.positions, &task.effects[k], state, &mut next);
            longer[end] = k as u8 + 1;
            carried = visit_from(
                task,
                &next,
                &longer,
                depth + 1,
                total as u16,
                left - 1,
                carried,
            );
        }
    }
    carried
}

// Judges a query, and if it is not refused, visits its sequences from the empty one on, up to the step limit.
pub fn explored(set: RuleSet, query: Query<'_>, plan_size: usize) -> Result<Progress, Refusal>
    ensures refusal { let asked = query_of query.entry in
        outcome_number result ≡ first_refusal (query_causes set asked plan_size) }
    ensures progress { let asked = query_of query.entry in
        IfOk result (λ progress. progress ≡ whole_progress set asked) }
{
    query_refusal(set, query, plan_size)?;
    let task = Task {
        conditions: &conditions_of(set),
        effects: &effects_of(set),
        costs: &costs_of(set),
        blocked: &lookup_of(set.count, query.table),
        goal: query.goal,
        limits: Limits {
            positions: set.positions as usize,
            count: set.count as usize,
            reach: query.reach,
            max_cost: query.max_cost,
            step_limit: query.step_limit,
        },
    };
    let moves = [NO_MOVE; MOVE_LIMIT];
    let blank = Progress {
        steps: 0,
        exceeded: false,
        best: None,
        least: TOP_COST,
    };
    let state = start_state(query.start);
    Ok(visit_from(&task, &state, &moves, 0, 0, query.max_moves, blank))
}
