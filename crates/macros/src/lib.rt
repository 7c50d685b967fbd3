// Macros of sequences.
#![tactic(auto)]

ghost use Rattle.std.specs.Prelude.{◌≡◌};
ghost use Rattle.theory_spec.specs.Sequences.{Numbered};
ghost use Rattle.model_spec.specs.Limits.{max_rules};
ghost use Rattle.model_spec.specs.Refusals.{first_refusal};
ghost use Rattle.model_spec.specs.Validity.{WellFormed};
ghost use Rattle.macros_spec.specs.Composition.{composed, as_vectors};
ghost use Rattle.macros_spec.specs.Answers.{sequence_causes, refused_macro, macro_with, macro_answer, Meaning};

use composition::{empty, extended};
use macros_spec::{Macro, MacroAnswer, Touched, Vectors};
use model_spec::{MOVE_LIMIT, PLACE_COUNT, RuleSet};
use moves::{cost_of, has_unknown_move, rule_at};
use touched::touched;
use validity::is_valid;
use wide_positions::wide_positions;

// A refusal: zeros. Its number stays: `MacroAnswer` has it, and the record Meaning speaks of that.
fn refused(outcome: u8) -> MacroAnswer
    ensures { result ≡ refused_macro outcome }
{
    MacroAnswer {
        outcome,
        result: Macro {
            condition: [0; PLACE_COUNT],
            effect: [0; PLACE_COUNT],
            cost: 0,
        },
        touched: Touched {
            reads: 0,
            writes: 0,
        },
    }
}

// The vectors of a sequence.
fn composed(set: RuleSet, moves: &[u8]) -> Vectors
    requires { Numbered max_rules moves.now }
    ensures { result ≡ as_vectors (composed set moves.now) }
{
    moves.iter().fold(
        empty(set),
        |sequence, number| extended(sequence, rule_at(set, *number)),
    )
}

// The macro of a sequence once the set is judged.
fn macro_for(set: RuleSet, moves: &[u8]) -> MacroAnswer
    requires { WellFormed set }
    ensures { let sequence = moves.now in
        result ≡ macro_with set sequence (first_refusal (sequence_causes set sequence)) }
{
    if MOVE_LIMIT < moves.len() {
        return refused(11);
    }
    if has_unknown_move(set.count, moves) {
        return refused(13);
    }
    let composition = composed(set, moves);
    if !composition.admitted {
        return refused(17);
    }
    let condition = composition.condition;
    let effect = composition.effect;
    let cost = cost_of(set, moves) as u16;
    let wide = wide_positions(set);
    let sets = touched(wide, composition);
    MacroAnswer {
        outcome: 0,
        result: Macro {
            condition,
            effect,
            cost,
        },
        touched: sets,
    }
}

// The macro of a sequence of rule numbers.
pub fn macro_of(set: RuleSet, moves: &[u8]) -> MacroAnswer
    ensures { let sequence = moves.now in
        (result ≡ macro_answer set sequence)
        × Meaning set sequence result }
{
    if !is_valid(set) {
        return refused(7);
    }
    macro_for(set, moves)
}
