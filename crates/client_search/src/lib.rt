// The query of a client, counted in its tally.
#![tactic(auto)]

ghost use Rattle.std.specs.Prelude.{◌≡◌, length};
ghost use Rattle.search_spec.specs.Query.{query_of};
ghost use Rattle.search_spec.specs.Searched.{Searched};
ghost use Rattle.clients_spec.specs.Clients.{client_searched, client_queried, ClientMeaning};

use client_tallies::{client_refusal, update_client};
use model_spec::RuleSet;
use refused_search::refused_search;
use search::search;
use search_spec::{Answer, Query, Tally};

// The search of a client among so many; 19 and a blank plan, before all else, where it is not listed.
fn search_listed(
    count: usize,
    client: usize,
    set: RuleSet,
    query: Query<'_>,
    plan: &mut [u8],
) -> Answer
    ensures { (let asked = query_of query.entry in
        let room = length plan.old in
        let found : Searched = record { answer = result; plan = plan.new } in
        client_searched count client set asked room ≡ found) }
{
    let refusal = client_refusal(count, client);
    if refusal != 0 {
        return refused_search(refusal, plan);
    }
    search(set, query, plan)
}

// A query of a client: a search, and then the update of the client's tally in the list that the caller keeps.
pub fn search_for_client(
    set: RuleSet,
    query: Query<'_>,
    plan: &mut [u8],
    tallies: &mut [Tally],
    client: usize,
) -> Answer
    ensures { (let asked = query_of query.entry in
        let room = length plan.old in
        let before = tallies.old in
        let after = tallies.new in
        let found : Searched = record { answer = result; plan = plan.new } in
        (client_queried set asked room before client ≡ record { found = found; tallies = after })
        × ClientMeaning set asked room client before found after) }
{
    let answer = search_listed(tallies.len(), client, set, query, plan);
    update_client(tallies, client, answer.outcome, answer.steps);
    answer
}
