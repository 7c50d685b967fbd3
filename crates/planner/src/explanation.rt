// The C entry that explains why the search does not show a proposed sequence.
ghost use Rattle.std.specs.Prelude.{◌≡◌, length};
ghost use Rattle.search_spec.specs.Query.{asked};
ghost use Rattle.planner_spec.specs.TextExplain.{text_explained, explanation_buffer, TextExplainMeaning};

use search_spec::Query;
use text_explain::explain_text;

// The outcome, and in the buffer the nineteen bytes of the explanation and zeros after them; zeros alone where the
// buffer is too short for them.
#[unsafe(no_mangle)]
pub extern "C" fn planner_explain(
    rules: &[u8],
    table: &[u8],
    start: &[u8],
    goal: &[u8],
    moves: &[u8],
    out: &mut [u8],
    reach: usize,
    max_moves: usize,
    max_cost: u16,
    step_limit: u32,
) -> u8
    ensures { let query = asked reach table.now start.now goal.now
        max_moves max_cost step_limit in
        let room = length out.old in
        let answer = text_explained rules.now query moves.now in
        (result ≡ answer.outcome)
        × (out.new ≡ explanation_buffer room answer)
        × TextExplainMeaning rules.now query moves.now room result out.new }
{
    // the C interface passes the parts of a query one by one
    let query = Query {
        reach,
        table,
        start,
        goal,
        max_moves,
        max_cost,
        step_limit,
    };
    explain_text(rules, query, moves, out)
}
