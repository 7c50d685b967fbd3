// The positions that the marked sequences of a pruning table read and write, mark by mark; none when refused.
#![tactic(auto)]

ghost use Rattle.std.specs.Prelude.{◌≡◌, ◌&&◌, eqb, MatchResult};
ghost use Rattle.macros_spec.specs.Composition.{lines_of};
ghost use Rattle.macros_spec.specs.Touched.{untouched};
ghost use Rattle.macros_spec.specs.How.Touching.{touched_within};
ghost use Rattle.refusals_spec.specs.Numbers.{outcome_number};
ghost use Rattle.unions_spec.specs.Unions.{refused_table};
ghost use Rattle.unions_spec.specs.How.United.{united};

use macros_spec::{Touched, Vectors};
use refusals::number_of;
use refusals_spec::Refusal;
use touched::touched;
use unions_spec::TableAnswer;

// What a refused build or check gives: no positions.
pub fn refused(outcome: u8) -> TableAnswer
    ensures { result ≡ refused_table outcome }
{
    let touched = Touched {
        reads: 0,
        writes: 0,
    };
    TableAnswer { outcome, touched }
}

// What a build or a check gives: the unions that it found, or its refusal.
pub fn answer(found: Result<Touched, Refusal>) -> TableAnswer
    ensures outcome { result.outcome ≡ outcome_number found }
    ensures touched { MatchResult found (λ sets. result.touched ≡ sets) (λ _. result.touched ≡ untouched) }
{
    match found {
        Ok(touched) => TableAnswer {
            outcome: 0,
            touched,
        },
        Err(refusal) => refused(number_of(refusal)),
    }
}

// Whether both unions have all positions of `wide`, so that a mark can add none.
fn are_full(sets: Touched, wide: u16) -> bool
    ensures { result ≡ (eqb sets.reads wide && eqb sets.writes wide) }
{
    sets.reads == wide && sets.writes == wide
}

// What either touches, read and written apart.
fn joined(first: Touched, second: Touched) -> Touched
    ensures { result ≡ united first second }
{
    Touched {
        reads: first.reads | second.reads,
        writes: first.writes | second.writes,
    }
}

// Both unions with one marked sequence more, of which these are the vectors. Of what it touches the positions of `wide`
// count; builder and check give those with two values or more. Full unions are left at once: the builder calls this for
// each mark, the check for each justified one.
pub fn with_mark(before: Touched, wide: u16, vectors: Vectors) -> Touched
    ensures { result ≡ united before (touched_within wide (lines_of vectors)) }
{
    if are_full(before, wide) {
        return before;
    }
    let own = touched(wide, vectors);
    joined(before, own)
}
