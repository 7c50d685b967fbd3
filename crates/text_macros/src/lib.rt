// The macro of a sequence of a rule text's set, and what it reads and writes, as bytes. 1 to 4 of the text come before
// all else.
#![tactic(auto)]

ghost use Rattle.std.specs.Prelude.{◌≡◌, not, [], ◌∷◌, ◌≤◌, ltb, eqb, length};
ghost use Rattle.theory_spec.specs.Lists.{padded};
ghost use Rattle.model_spec.specs.Refusals.{first_refusal};
ghost use Rattle.planner_spec.specs.TextMacro.{macro_bytes, macro_size, text_macro, macro_buffer, TextMacroMeaning};

use buffers::fill_from;
use macro_bytes::macro_bytes;
use macros_spec::{Macro, Touched};
use reader::read;

// How many bytes a macro has.
const MACRO_SIZE: usize = 38;

// Puts the bytes of a macro and of its sets into the buffer, and zeros after them.
fn put_macro(m: Macro, touched: Touched, out: &mut [u8])
    requires { macro_size ≤ length out.old }
    ensures { out.new ≡ padded (length out.old) 0 (macro_bytes m touched) }
{
    let (front, rest) = out.split_at_mut(MACRO_SIZE);
    front.copy_from_slice(&macro_bytes(m, touched));
    rest.fill(0);
}

// The outcome of a call whose macro is to stand in a buffer of so many bytes: last of all, 8 where they are too few.
fn fitted(outcome: u8, room: usize) -> u8
    ensures { result ≡ first_refusal ((outcome, not (eqb outcome 0)) ∷ (8, ltb room macro_size) ∷ []) }
{
    if MACRO_SIZE <= room {
        return outcome;
    }
    if outcome == 0 {
        return 8;
    }
    outcome
}

// The macro of a sequence of rule numbers, with the positions that it reads and writes, as bytes; zeros when refused,
// also where the buffer is too short.
pub fn macro_of(text: &[u8], moves: &[u8], out: &mut [u8]) -> u8
    ensures { let room = length out.old in
        let answer = text_macro text.now moves.now room in
        (result ≡ answer.outcome)
        × (out.new ≡ macro_buffer room answer)
        × TextMacroMeaning text.now moves.now room result out.new }
{
    fill_from(out, 0, 0);
    let file = read(text);
    if file.outcome != 0 {
        return file.outcome;
    }
    let answer = macros::macro_of(file.set, moves);
    let refusal = fitted(answer.outcome, out.len());
    if refusal != 0 {
        return refusal;
    }
    put_macro(answer.result, answer.touched, out);
    0
}
