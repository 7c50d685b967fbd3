// The second entry of the search: it gives the floor, and fills the plan buffer as the first does.
ghost use Rattle.std.specs.Prelude.{◌≡◌, length};
ghost use Rattle.search_spec.specs.Query.{asked};
ghost use Rattle.planner_spec.specs.Packed.{searched_text};
ghost use Rattle.planner_spec.specs.TextSearch.{TextSearchMeaning};

use search_spec::Query;
use text_search::search_text;

// The search of `planner_search`, with the same effect on the plan buffer: gives the floor, 0 for every outcome but 18.
#[unsafe(no_mangle)]
pub extern "C" fn planner_search_floor(
    rules: &[u8],
    table: &[u8],
    start: &[u8],
    goal: &[u8],
    plan: &mut [u8],
    reach: usize,
    max_moves: usize,
    max_cost: u16,
    step_limit: u32,
) -> u16
    ensures { let query = asked reach table.now start.now goal.now
        max_moves max_cost step_limit in
        let room = length plan.old in
        let found = searched_text rules.now query room in
        (result ≡ found.answer.floor)
        × (plan.new ≡ found.plan)
        × TextSearchMeaning rules.now query room found }
{
    // the C interface passes the parts of a query one by one
    let query = Query {
        reach,
        table,
        start,
        goal,
        max_moves,
        max_cost,
        step_limit,
    };
    let answer = search_text(rules, query, plan);
    answer.floor
}
