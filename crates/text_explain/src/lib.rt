// The explanation with the set of a rule text, as bytes. 1 to 4 of the text come before all else.
#![tactic(auto)]

ghost use Rattle.std.specs.Prelude.{◌≡◌, length, replicate};
ghost use Rattle.search_spec.specs.Query.{query_of};
ghost use Rattle.planner_spec.specs.TextExplain.{text_explained, explanation_buffer, TextExplainMeaning};

use buffers::fill_from;
use explain::explain;
use explain_spec::Explanation;
use explanation_bytes::explanation_bytes;
use reader::read;
use search_spec::Query;

// How many bytes an explanation has.
const EXPLANATION_SIZE: usize = 19;

// Puts the bytes of an explanation at the front of a buffer of zeros, if there is room for them.
fn put_explanation(answer: Explanation, out: &mut [u8])
    requires { out.old ≡ replicate (length out.old) 0 }
    ensures { out.new ≡ explanation_buffer (length out.old) answer }
{
    if EXPLANATION_SIZE <= out.len() {
        out[..EXPLANATION_SIZE].copy_from_slice(&explanation_bytes(answer));
    }
}

// Explains why the search does not show a proposed sequence, with the set of a rule text; the outcome. The bytes of the
// explanation stand in the buffer, and zeros after them; zeros alone where the buffer is too short for them.
pub fn explain_text(text: &[u8], query: Query<'_>, moves: &[u8], out: &mut [u8]) -> u8
    ensures { let asked = query_of query.entry in
        let room = length out.old in
        let answer = text_explained text.now asked moves.now in
        (result ≡ answer.outcome)
        × (out.new ≡ explanation_buffer room answer)
        × TextExplainMeaning text.now asked moves.now room result out.new }
{
    fill_from(out, 0, 0);
    let file = read(text);
    if file.outcome != 0 {
        return file.outcome;
    }
    let answer = explain(file.set, query, moves);
    put_explanation(answer, out);
    answer.outcome
}
