// Composition: the vectors of a sequence, rule after rule. Document 01 asks for entry arrays of sixteen that go in and
// come back by value, without a lent buffer; so `followed` does by value what `states`' `after` does on arrays that
// are lent. Both vectors travel in one struct that is changed in place: document 02 allows one copy of the effect for
// each rule, and none of the condition. The struct's mark `admitted` stays: the theorem ExtendedMeaning speaks of it.
// The loops over places stay too: with an array's `map` the macros of `bench/run` took 1.7 to 4.9 times as long, and
// with `from_fn` for the empty sequence those of topspin 5 to 7 in 100 longer.
#![tactic(auto)]

ghost use Rattle.std.specs.Prelude.{◌≡◌, true, not, cond, ◌+◌, ◌<◌, ltb, eqb};
ghost use Rattle.std.proofs.Math.Option.{some, none};
ghost use Rattle.model_spec.specs.Limits.{place_count, first_variable};
ghost use Rattle.model_spec.specs.States.{is_constant, values_of};
ghost use Rattle.model_spec.specs.Validity.{Valid};
ghost use Rattle.macros_spec.specs.Composition.{Lines, own_variables, empty_lines, replaced, unified, extended};
ghost use Rattle.macros_spec.specs.Composition.{as_vectors, lines_of};
ghost use Rattle.macros_spec.specs.VectorMeaning.{EmptyMeaning, ExtendedMeaning};

use macros_spec::Vectors;
use model_spec::{FIRST_VARIABLE, MAX_POSITIONS, PLACE_COUNT, Rule, RuleSet};

// What an entry stands for, where `held` stands at a variable's place.
fn stands_for(entry: u8, held: u8) -> u8
    ensures { result ≡ cond (is_constant entry) entry held }
{
    if entry < FIRST_VARIABLE { entry } else { held }
}

// An entry, with `to` in the place of `from`.
fn exchanged(from: u8, to: u8, entry: u8) -> u8
    ensures { result ≡ cond (eqb entry from) to entry }
{
    if entry == from { to } else { entry }
}

// Whether an entry of a condition asks anything: the variable of its own place does not.
fn asks(entry: u8, i: usize) -> bool
    requires { i < place_count }
    ensures { result ≡ not (eqb entry (first_variable + i)) }
{
    entry as usize != FIRST_VARIABLE as usize + i
}

// No vectors: no state admits the sequence.
fn denied() -> Vectors
    ensures { result ≡ as_vectors none }
{
    Vectors {
        admitted: false,
        condition: [0; PLACE_COUNT],
        effect: [0; PLACE_COUNT],
    }
}

// Both vectors with `to` in the place of every `from`.
fn replaced(from: u8, to: u8, mut sequence: Vectors) -> Vectors
    ensures { (result.admitted ≡ sequence.admitted)
        × (result.condition ≡ replaced from to sequence.condition)
        × (result.effect ≡ replaced from to sequence.effect) }
{
    for i in 0..PLACE_COUNT {
        sequence.condition[i] = exchanged(from, to, sequence.condition[i]);
        sequence.effect[i] = exchanged(from, to, sequence.effect[i]);
    }
    sequence
}

// Place by place, what the effect holds made equal to what the next condition asks, both read in the effect as it now
// stands. Nothing is replaced where the two agree; they do where the condition asks nothing.
fn unified(mut sequence: Vectors, asked: [u8; PLACE_COUNT]) -> Vectors
    requires { sequence.admitted ≡ true }
    ensures { (let lines : Lines = record { condition = sequence.condition; effect = sequence.effect } in
        result ≡ as_vectors (unified asked 0 lines)) }
{
    for i in 0..PLACE_COUNT {
        let entry = asked[i];
        if asks(entry, i) {
            let place = (entry % MAX_POSITIONS) as usize;
            let have = sequence.effect[i];
            let want = stands_for(entry, sequence.effect[place]);
            if have != want {
                let from = have.max(want);
                let to = have.min(want);
                if from < FIRST_VARIABLE {
                    return denied();
                }
                sequence = replaced(from, to, sequence);
            }
        }
    }
    sequence
}

// The next rule's effect follows. Its entries are read in the effect before, the one copy of the macro's vectors.
fn followed(mut sequence: Vectors, last: [u8; PLACE_COUNT]) -> Vectors
    ensures { (result.admitted ≡ sequence.admitted)
        × (result.condition ≡ sequence.condition)
        × (result.effect ≡ values_of last sequence.effect) }
{
    let held = sequence.effect;
    for i in 0..PLACE_COUNT {
        let entry = last[i];
        let place = (entry % MAX_POSITIONS) as usize;
        sequence.effect[i] = stands_for(entry, held[place]);
    }
    sequence
}

// A rule after a sequence; one that no state admits stays so.
pub fn extended(sequence: Vectors, rule: Rule) -> Vectors
    ensures { (result ≡ as_vectors (extended rule (lines_of sequence)))
        × ExtendedMeaning sequence rule result }
{
    if !sequence.admitted {
        return denied();
    }
    let asked = rule.condition;
    let last = rule.effect;
    let met = unified(sequence, asked);
    if !met.admitted {
        return denied();
    }
    followed(met, last)
}

// A position's entry in the empty sequence: its variable, and 0 where it has a single value.
fn own_entry(size: u8, variable: u8) -> u8
    ensures { result ≡ cond (ltb 1 size) variable 0 }
{
    if 1 < size { variable } else { 0 }
}

// The condition of the empty sequence, which is its effect too: each position's entry in its own place, then zeros.
fn own_variables(positions: u8, sizes: [u8; PLACE_COUNT]) -> [u8; PLACE_COUNT]
    ensures { result ≡ own_variables positions sizes }
{
    let mut entries = [0u8; PLACE_COUNT];
    for i in 0..positions.min(MAX_POSITIONS) {
        entries[i as usize] = own_entry(sizes[i as usize], FIRST_VARIABLE + i);
    }
    entries
}

// The empty sequence.
pub fn empty(set: RuleSet) -> Vectors
    ensures { (result ≡ as_vectors (some (empty_lines set)))
        × (Valid set → EmptyMeaning set result) }
{
    let sizes = set.sizes;
    let condition = own_variables(set.positions, sizes);
    let effect = condition;
    Vectors {
        admitted: true,
        condition,
        effect,
    }
}
