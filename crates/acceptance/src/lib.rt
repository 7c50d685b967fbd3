// Whether a pruning table is accepted, without what its marks read and write: what a search asks of its table.
#![tactic(auto)]

ghost use Rattle.std.specs.Prelude.{◌≡◌, cond, ◌*◌, ◌≤◌, length};
ghost use Rattle.model_spec.specs.Validity.{WellFormed};
ghost use Rattle.tables_spec.specs.Table.{table_entries, accepted};
ghost use Rattle.tables_spec.specs.Answers.{check_outcome, CheckMeaning};
ghost use Rattle.refusals_spec.specs.Numbers.{outcome_number};

use mark_check::mark_at;
use model_spec::RuleSet;
use refusals::number_of;
use refusals_spec::Refusal;
use table_sizes::shape_refusal;
use validity::is_valid;

// Checks every entry. Entry 0 has no smaller index to name, so it has to be 65535. `reach` is for the contract alone:
// the sequences of a table of a smaller reach are the first ones of reach 3.
fn check_marks(set: RuleSet, reach: usize, table: &[u8]) -> Result<(), Refusal>
    requires { WellFormed set
        × (reach ≤ 3)
        × (length table.now ≡ 2 * table_entries set reach) }
    ensures { outcome_number result ≡ cond (accepted set reach table.now) 0 14 }
{
    for i in 0..table.len() / 2 {
        mark_at(set, table, i)?;
    }
    Ok(())
}

// Checks a table.
fn check(set: RuleSet, reach: usize, table: &[u8]) -> Result<(), Refusal>
    ensures { outcome_number result ≡ check_outcome set reach table.now }
{
    if !is_valid(set) {
        return Err(Refusal::RuleSet);
    }
    shape_refusal(set, reach, table.len())?;
    check_marks(set, reach, table)
}

// The outcome of the check of a table, whoever made it: whether each of its marks is justified.
pub fn check_outcome(set: RuleSet, reach: usize, table: &[u8]) -> u8
    ensures { (result ≡ check_outcome set reach table.now)
        × CheckMeaning set reach table.now result }
{
    match check(set, reach, table) {
        Ok(()) => 0,
        Err(refusal) => number_of(refusal),
    }
}
