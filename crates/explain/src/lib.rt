// Why a proposed sequence is not the plan (document 02, request 2026-06): the outcome of the query, the first reason
// that holds of the proposal, and its marked segment.
#![tactic(auto)]

ghost use Rattle.std.specs.Prelude.{◌≡◌, ◌≤◌, length};
ghost use Rattle.theory_spec.specs.Lists.{same};
ghost use Rattle.theory_spec.specs.Sequences.{Numbered};
ghost use Rattle.model_spec.specs.Limits.{place_count, max_rules};
ghost use Rattle.model_spec.specs.Rules.{sequence_cost};
ghost use Rattle.search_spec.specs.Query.{query_of};
ghost use Rattle.explain_spec.specs.Explained.{has_reason, bare, plan_for, explained_with, first_reason, explained};
ghost use Rattle.explain_spec.specs.Meaning.{ProposalPassed, ExplanationMeaning};
ghost use Rattle.explain_laws.specs.How.Proposals.{told_of, comparison_of, reason_of};

use answers::plan_part;
use explain_laws::Reason;
use explain_spec::Explanation;
use model_spec::{MOVE_LIMIT, RuleSet};
use moves::{cost_of, has_unknown_move};
use proposals::{costly_move, run_of, wrong_position};
use queries::query_refusal;
use refusals::number_of;
use refusals_spec::Refusal;
use search::search;
use search_spec::{NO_MOVE, Query};
use search_states::start_state;
use segments::{marked_segment, witness_of};

// An outcome that stands alone.
fn bare(outcome: u8) -> Explanation
    ensures { result ≡ bare outcome }
{
    Explanation {
        outcome,
        reason: 0,
        place: 0,
        cost: 0,
        plan_cost: 0,
        segment_end: 0,
        segment_length: 0,
        witness_length: 0,
        witness: [0; 3],
    }
}

// Whether an outcome stands beside a reason.
fn has_reason(outcome: u8) -> bool
    ensures { result ≡ has_reason outcome }
{
    outcome == 0 || outcome == 15
}

// An outcome beside its reason, before a marked segment is looked for.
fn with_reason(outcome: u8, reason: Reason) -> Explanation
    requires { let told = told_of reason in told.place ≤ 255 }
    ensures { let told = told_of reason in
        let alone = bare outcome in
        result ≡ record alone {
          reason = told.number;
          place = told.place;
          cost = told.cost;
          plan_cost = told.plan_cost;
        } }
{
    let alone = bare(outcome);
    match reason {
        Reason::OverMoveBound => Explanation { reason: 1, ..alone },
        Reason::CannotRun(place) => Explanation {
            reason: 2,
            place: place as u8,
            ..alone
        },
        Reason::OverCostBound(place) => Explanation {
            reason: 3,
            place: place as u8,
            ..alone
        },
        Reason::OffGoal(place) => Explanation {
            reason: 4,
            place: place as u8,
            ..alone
        },
        Reason::Dearer { cost, plan_cost } => Explanation {
            reason: 5,
            cost,
            plan_cost,
            ..alone
        },
        Reason::Later => Explanation { reason: 6, ..alone },
        Reason::IsPlan => Explanation { reason: 7, ..alone },
    }
}

// Whether a proposal is the plan, move by move.
fn is_plan(moves: &[u8], plan: &[u8]) -> bool
    ensures { result ≡ same moves.now plan.now }
{
    moves.len() == plan.len() && moves.iter().zip(plan).all(|(own, other)| *own == *other)
}

// The reason for a proposal that leads to the goal: dearer than the plan, as cheap but later, or the plan.
fn comparison(set: RuleSet, plan: &[u8], moves: &[u8]) -> Reason
    requires { sequence_cost set moves.now ≤ 65535 }
    ensures { told_of result ≡ comparison_of set moves.now plan.now }
{
    let cost = cost_of(set, moves);
    let plan_cost = cost_of(set, plan);
    if plan_cost < cost {
        Reason::Dearer {
            cost: cost as u16,
            plan_cost: plan_cost as u16,
        }
    } else if is_plan(moves, plan) {
        Reason::IsPlan
    } else {
        Reason::Later
    }
}

// The first reason that holds of a proposal, against the plan.
fn reason_for(set: RuleSet, query: Query<'_>, plan: &[u8], moves: &[u8]) -> Reason
    requires { Numbered max_rules moves.now
        × (length query.start.now ≤ place_count)
        × (length query.goal.now ≤ place_count) }
    ensures { let asked = query_of query.entry in
        told_of result ≡ reason_of set asked moves.now plan.now }
{
    if query.max_moves < moves.len() {
        return Reason::OverMoveBound;
    }
    let end = match run_of(set, &start_state(query.start), moves) {
        Ok(end) => end,
        Err(failing) => return Reason::CannotRun(failing),
    };
    if let Some(costly) = costly_move(set, query.max_cost, moves) {
        return Reason::OverCostBound(costly);
    }
    if let Some(wrong) = wrong_position(query.goal, &end) {
        return Reason::OffGoal(wrong);
    }
    comparison(set, plan, moves)
}

// The explanation with an outcome that stands beside a reason, once the plan is known.
fn explained_with(
    set: RuleSet,
    query: Query<'_>,
    outcome: u8,
    plan: &[u8],
    moves: &[u8],
) -> Explanation
    requires { let asked = query_of query in
        ProposalPassed set asked moves.now }
    ensures { let asked = query_of query.entry in
        let q = moves.now in
        plan.now ≡ plan_for set asked
        → result ≡ explained_with set asked q outcome (first_reason set asked q) }
{
    let told = with_reason(outcome, reason_for(set, query, plan, moves));
    let Some(segment) = marked_segment(set.count, query.reach, query.table, moves) else {
        return told;
    };
    let from = segment.end - usize::from(segment.length);
    let witness = witness_of(set.count, query.table, &moves[from..segment.end]);
    let rules = witness.rules;
    Explanation {
        segment_end: segment.end,
        segment_length: segment.length,
        witness_length: witness.length,
        witness: rules,
        ..told
    }
}

// Explains why the search does not show a proposed sequence, whatever the parts of the query are and however long the
// proposal is. A move that is no rule's number is told without a search.
pub fn explain(set: RuleSet, query: Query<'_>, moves: &[u8]) -> Explanation
    ensures { let asked = query_of query.entry in
        (result ≡ explained set asked moves.now)
        × ExplanationMeaning set asked moves.now result }
{
    if has_unknown_move(set.count, moves) {
        return match query_refusal(set, query, MOVE_LIMIT) {
            Ok(()) => bare(number_of(Refusal::UnknownMove)),
            Err(refusal) => bare(number_of(refusal)),
        };
    }
    let mut plan = [NO_MOVE; MOVE_LIMIT];
    let answer = search(set, query, &mut plan);
    let outcome = answer.outcome;
    if !has_reason(outcome) {
        return bare(outcome);
    }
    let shown = plan_part(&plan, answer.length as usize);
    explained_with(set, query, outcome, shown, moves)
}
