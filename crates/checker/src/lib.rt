// The check of pruning tables (document 01: the judge).
#![tactic(auto)]

ghost use Rattle.std.specs.Prelude.{◌≡◌, cond, ◌*◌, ◌≤◌, length, IfOk};
ghost use Rattle.model_spec.specs.Validity.{WellFormed};
ghost use Rattle.tables_spec.specs.Table.{table_entries, accepted};
ghost use Rattle.tables_spec.specs.Answers.{check_outcome, CheckMeaning};
ghost use Rattle.refusals_spec.specs.Numbers.{outcome_number};
ghost use Rattle.unions_spec.specs.Unions.{table_touched, check_answer, UnionMeaning};

use macros_spec::Touched;
use mark_check::mark_at;
use model_spec::RuleSet;
use refusals_spec::Refusal;
use table_sizes::shape_refusal;
use unions::{answer, with_mark};
use unions_spec::TableAnswer;
use validity::is_valid;
use wide_positions::wide_positions;

// Checks every entry, and gives what the marked sequences read and write: a mark is tested and added at once, so that
// each sequence is composed only once. Entry 0 has no smaller index to name, so it has to be 65535. `reach` is for the
// contract alone: the sequences of a table of a smaller reach are the first ones of reach 3.
fn check_marks(set: RuleSet, reach: usize, table: &[u8]) -> Result<Touched, Refusal>
    requires { WellFormed set
        × (reach ≤ 3)
        × (length table.now ≡ 2 * table_entries set reach) }
    ensures outcome { outcome_number result ≡ cond (accepted set reach table.now) 0 14 }
    ensures touched { IfOk result (λ touched. touched ≡ table_touched set reach table.now) }
{
    let wide = wide_positions(set);
    let mut touched = Touched {
        reads: 0,
        writes: 0,
    };
    for i in 0..table.len() / 2 {
        if let Some(vectors) = mark_at(set, table, i)? {
            touched = with_mark(touched, wide, vectors);
        }
    }
    Ok(touched)
}

// Checks a table.
fn check(set: RuleSet, reach: usize, table: &[u8]) -> Result<Touched, Refusal>
    ensures outcome { outcome_number result ≡ check_outcome set reach table.now }
    ensures touched { IfOk result (λ touched. touched ≡ table_touched set reach table.now) }
{
    if !is_valid(set) {
        return Err(Refusal::RuleSet);
    }
    shape_refusal(set, reach, table.len())?;
    check_marks(set, reach, table)
}

// Checks a table, whoever made it: whether each of its marks is justified. Gives the positions that the marked
// sequences read and write.
pub fn check_table(set: RuleSet, reach: usize, table: &[u8]) -> TableAnswer
    ensures { let entries = table.now in
        (result ≡ check_answer set reach entries)
        × CheckMeaning set reach entries result.outcome
        × UnionMeaning set reach entries result }
{
    answer(check(set, reach, table))
}
