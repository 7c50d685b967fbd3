// The search with the set of a rule text. 1 to 4 of the text come before all else.
#![tactic(auto)]

ghost use Rattle.std.specs.Prelude.{◌≡◌, length};
ghost use Rattle.search_spec.specs.Query.{query_of};
ghost use Rattle.search_spec.specs.Searched.{Searched};
ghost use Rattle.planner_spec.specs.Packed.{searched_text};
ghost use Rattle.planner_spec.specs.TextSearch.{TextSearchMeaning};

use buffers::fill_from;
use search_spec::{Answer, NO_MOVE, Query};

// Searches for the cheapest plan of a query with the set of a rule text, whatever its parts are.
pub fn search_text(text: &[u8], query: Query<'_>, plan: &mut [u8]) -> Answer
    ensures { (let asked = query_of query.entry in
        let room = length plan.old in
        let found : Searched = record { answer = result; plan = plan.new } in
        (searched_text text.now asked room ≡ found)
        × TextSearchMeaning text.now asked room found) }
{
    let file = reader::read(text);
    let refusal = file.outcome;
    if refusal != 0 {
        fill_from(plan, 0, NO_MOVE);
        return Answer {
            outcome: refusal,
            cost: 0,
            length: 0,
            steps: 0,
            floor: 0,
        };
    }
    search::search(file.set, query, plan)
}
