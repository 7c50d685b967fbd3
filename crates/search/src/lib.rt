// The search (document 01: the walk): the cheapest plan of a query, or why there is none; over its step limit the
// cheapest of the plans met, if any, and a floor.
#![tactic(auto)]

ghost use Rattle.std.specs.Prelude.{◌≡◌, length};
ghost use Rattle.search_spec.specs.Query.{query_of};
ghost use Rattle.search_spec.specs.Searched.{Searched, searched, SearchMeaning};
ghost use Rattle.search_spec.specs.PlanPart.{PartMeaning};

use buffers::fill_from;
use model_spec::RuleSet;
use refusals::number_of;
use search_progress::{floor_shown, outcome_of};
use search_spec::{Answer, NO_MOVE, Query};
use visits::explored;

// An answer without a plan.
fn without_plan(outcome: u8, steps: u32) -> Answer
    ensures { result ≡ record { outcome = outcome; cost = 0; length = 0; steps = steps; floor = 0 } }
{
    Answer {
        outcome,
        cost: 0,
        length: 0,
        steps,
        floor: 0,
    }
}

// Searches for the cheapest plan of a query, whatever its parts are. Over the step limit the plan is the cheapest of
// those among the first sequences visited, if there is one, and no plan within the bounds costs less than the floor.
pub fn search(set: RuleSet, query: Query<'_>, plan: &mut [u8]) -> Answer
    ensures { (let asked = query_of query.entry in
        let room = length plan.old in
        let found : Searched = record { answer = result; plan = plan.new } in
        (searched set asked room ≡ found)
        × SearchMeaning set asked room found
        × PartMeaning set asked room found) }
{
    fill_from(plan, 0, NO_MOVE);
    let progress = match explored(set, query, plan.len()) {
        Ok(progress) => progress,
        Err(refusal) => return without_plan(number_of(refusal), 0),
    };
    let outcome = outcome_of(progress.exceeded, progress.best.is_some());
    let best = match progress.best {
        Some(best) => best,
        None => return without_plan(outcome, progress.steps),
    };
    let floor = floor_shown(progress.exceeded, best.cost, progress.least);
    let length = best.length as usize;
    plan[..length].copy_from_slice(&best.moves[..length]);
    Answer {
        outcome,
        cost: best.cost,
        length: best.length,
        steps: progress.steps,
        floor,
    }
}
