// How long a pruning table is, and whether a table has that length.
#![tactic(auto)]

ghost use Rattle.std.specs.Prelude.{◌≡◌, ◌*◌, IfOk};
ghost use Rattle.model_spec.specs.Refusals.{first_refusal};
ghost use Rattle.tables_spec.specs.Table.{table_entries};
ghost use Rattle.tables_spec.specs.Answers.{reach_causes, size_causes, shape_causes, table_size, SizeMeaning};
ghost use Rattle.refusals_spec.specs.Numbers.{outcome_number};

use model_spec::RuleSet;
use refusals::number_of;
use refusals_spec::Refusal;
use tables::sequence_count;
use tables_spec::TableSize;
use validity::is_valid;

// How long a table is for a reach, in bytes, once the set is judged.
fn size_for(set: RuleSet, reach: usize) -> Result<usize, Refusal>
    ensures outcome { outcome_number result ≡ first_refusal (reach_causes reach) }
    ensures length { IfOk result (λ length. length ≡ 2 * table_entries set reach) }
{
    if !(1..=3).contains(&reach) {
        return Err(Refusal::Reach);
    }
    Ok(2 * sequence_count(set.count, reach))
}

// How long the table of a rule set is for a reach, in bytes.
fn judged_size(set: RuleSet, reach: usize) -> Result<usize, Refusal>
    ensures outcome { outcome_number result ≡ first_refusal (size_causes set reach) }
    ensures length { IfOk result (λ length. length ≡ 2 * table_entries set reach) }
{
    if !is_valid(set) {
        return Err(Refusal::RuleSet);
    }
    size_for(set, reach)
}

// How long the table of a rule set is for a reach, in bytes.
pub fn table_size(set: RuleSet, reach: usize) -> TableSize
    ensures { (result ≡ table_size set reach)
        × SizeMeaning set reach result }
{
    match judged_size(set, reach) {
        Ok(length) => TableSize { outcome: 0, length },
        Err(refusal) => TableSize {
            outcome: number_of(refusal),
            length: 0,
        },
    }
}

// Once the set is judged: whether a table has the length of its reach.
pub fn shape_refusal(set: RuleSet, reach: usize, size: usize) -> Result<(), Refusal>
    ensures { outcome_number result ≡ first_refusal (shape_causes set reach size) }
{
    if size_for(set, reach)? != size {
        return Err(Refusal::TableLength);
    }
    Ok(())
}
