// The query with a tally.
#![tactic(auto)]

ghost use Rattle.std.specs.Prelude.{◌≡◌, length};
ghost use Rattle.search_spec.specs.Query.{query_of};
ghost use Rattle.search_spec.specs.Searched.{Searched, SearchMeaning};
ghost use Rattle.search_spec.specs.PlanPart.{PartMeaning};
ghost use Rattle.search_spec.specs.Tallies.{queried, TallyMeaning};

use model_spec::RuleSet;
use search::search;
use search_spec::{Answer, Query, Tally};
use tally::update;

// A query with a tally: a search, and then the update of the tally where the caller keeps it.
pub fn search_with_tally(
    set: RuleSet,
    query: Query<'_>,
    plan: &mut [u8],
    tally: &mut Tally,
) -> Answer
    ensures { (let asked = query_of query.entry in
        let room = length plan.old in
        let found : Searched = record { answer = result; plan = plan.new } in
        (queried set asked room tally.old ≡ record { found = found; tally = tally.new })
        × SearchMeaning set asked room found
        × PartMeaning set asked room found
        × TallyMeaning result.outcome result.steps tally.old tally.new) }
{
    let answer = search(set, query, plan);
    update(tally, answer.outcome, answer.steps);
    answer
}
