// The test of one entry of a pruning table.
#![tactic(auto)]

ghost use Rattle.std.specs.Prelude.{◌≡◌, ◌≢◌, ◌<◌, cond, ◌&&◌, ltb, IfOk, MatchOption};
ghost use Rattle.model_spec.specs.Validity.{WellFormed};
ghost use Rattle.macros_spec.specs.Composition.{composed, as_vectors, lines_of};
ghost use Rattle.macros_spec.specs.Redundancy.{redundant_by_lines};
ghost use Rattle.tables_spec.specs.Table.{table_entries, kept, entry_at, entry_justified};
ghost use Rattle.refusals_spec.specs.Numbers.{outcome_number};
ghost use Rattle.tables_laws.specs.How.ShortSequences.{short_sequence};

use macros_spec::Vectors;
use model_spec::RuleSet;
use redundancy::is_redundant;
use refusals_spec::Refusal;
use sequences::{profile_at, sequence_at};
use tables::{KEPT, entry_at};
use tables_laws::Profile;

// Whether the entry at an index names a smaller one, with whose sequence a sequence with these vectors and this cost is
// redundant.
pub fn witness_serves(set: RuleSet, own: Profile, index: usize, entry: usize) -> bool
    ensures { let witness = short_sequence set.count entry in
        result ≡ (ltb entry index && redundant_by_lines set (lines_of own.vectors) own.cost witness) }
{
    if index <= entry {
        return false;
    }
    let witness = sequence_at(set.count, entry);
    is_redundant(set, own.vectors, own.cost, &witness.rules[witness.start..])
}

// What the entry at an index marks: nothing where it keeps its sequence, else the sequence of these vectors. Refused
// where it neither keeps its sequence nor names a smaller index with whose sequence it is redundant. Inlined into the
// callers' loops, a kept entry costs a comparison alone.
#[inline(always)]
pub fn mark_at(set: RuleSet, table: &[u8], index: usize) -> Result<Option<Vectors>, Refusal>
    ensures outcome { WellFormed set → index < table_entries set 3
        → outcome_number result ≡ cond (entry_justified set 3 table.now index) 0 14 }
    ensures mark { let entry = entry_at table.now index in
        let own = as_vectors (composed set (short_sequence set.count index)) in
        IfOk result (λ mark. MatchOption mark (entry ≡ kept) (λ vectors. (entry ≢ kept) × (vectors ≡ own))) }
{
    let entry = entry_at(table, index);
    if entry == KEPT {
        return Ok(None);
    }
    let own = profile_at(set, index);
    if !witness_serves(set, own, index, entry) {
        return Err(Refusal::Table);
    }
    Ok(Some(own.vectors))
}
