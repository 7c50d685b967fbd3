// The builder of pruning tables.
#![tactic(auto)]

ghost use Rattle.std.specs.Prelude.{◌≡◌, ◌*◌, ◌≤◌, ◌<◌, length, IfOk};
ghost use Rattle.model_spec.specs.Rules.{sequence_cost};
ghost use Rattle.model_spec.specs.Validity.{WellFormed};
ghost use Rattle.macros_spec.specs.Composition.{composed, as_vectors};
ghost use Rattle.tables_spec.specs.Table.{table_entries, built_table, built_entry};
ghost use Rattle.tables_spec.specs.Answers.{build_outcome, built_buffer, BuildMeaning};
ghost use Rattle.refusals_spec.specs.Numbers.{outcome_number};
ghost use Rattle.tables_laws.specs.How.ShortSequences.{short_sequence};
ghost use Rattle.unions_spec.specs.Unions.{table_touched, build_answer, UnionMeaning};

use macros_spec::Touched;
use model_spec::RuleSet;
use refusals_spec::Refusal;
use sequences::profile_at;
use table_sizes::shape_refusal;
use tables::KEPT;
use tables_laws::Profile;
use unions::{answer, with_mark};
use unions_spec::TableAnswer;
use validity::is_valid;
use wide_positions::wide_positions;
use witnesses::smallest_witness;

// The entry that the builder gives the sequence of an index, of which these are the vectors and the cost. A sequence is
// redundant with itself, so the search ends there at the latest.
fn entry_for(set: RuleSet, index: usize, own: Profile) -> usize
    requires { let sequence = short_sequence set.count index in
        WellFormed set
        × (index < table_entries set 3)
        × (own.vectors ≡ as_vectors (composed set sequence))
        × (own.cost ≡ sequence_cost set sequence) }
    ensures { (result ≡ built_entry set 3 index)
        × (result < 65536) }
{
    let witness = smallest_witness(set, own.vectors, own.cost).unwrap_or(KEPT);
    if witness == index {
        return KEPT;
    }
    witness
}

// Writes every entry, in order, and gives what the marked sequences read and write. `reach` is for the contract alone:
// a table of a smaller reach begins as that of reach 3 does.
fn write_entries(set: RuleSet, reach: usize, table: &mut [u8]) -> Touched
    requires { WellFormed set
        × (reach ≤ 3)
        × (length table.old ≡ 2 * table_entries set reach) }
    ensures { (table.new ≡ built_table set reach)
        × (result ≡ table_touched set reach (built_table set reach)) }
{
    let wide = wide_positions(set);
    let mut touched = Touched {
        reads: 0,
        writes: 0,
    };
    for i in 0..table.len() / 2 {
        let own = profile_at(set, i);
        let entry = entry_for(set, i, own);
        // one byte at a time: the law `entered_more` speaks of these two writes
        table[2 * i] = (entry % 256) as u8;
        table[2 * i + 1] = (entry / 256) as u8;
        if entry != KEPT {
            touched = with_mark(touched, wide, own.vectors);
        }
    }
    touched
}

// Builds a table; a refused one is left as it is.
fn build(set: RuleSet, reach: usize, table: &mut [u8]) -> Result<Touched, Refusal>
    ensures outcome { outcome_number result ≡ build_outcome set reach (length table.old) }
    ensures built { IfOk result (λ touched. (table.new ≡ built_table set reach)
        × (touched ≡ table_touched set reach (built_table set reach))) }
{
    if !is_valid(set) {
        return Err(Refusal::RuleSet);
    }
    shape_refusal(set, reach, table.len())?;
    Ok(write_entries(set, reach, table))
}

// Builds the table of a rule set for a reach: each entry is the smallest witness of its sequence, or 65535. Gives the
// positions that the marked sequences read and write.
pub fn build_table(set: RuleSet, reach: usize, table: &mut [u8]) -> TableAnswer
    ensures { let size = length table.old in
        (result ≡ build_answer set reach size)
        × (table.new ≡ built_buffer set reach size)
        × BuildMeaning set reach size result.outcome table.new
        × UnionMeaning set reach table.new result }
{
    let built = build(set, reach, table);
    if built.is_err() {
        table.fill(0);
    }
    answer(built)
}
