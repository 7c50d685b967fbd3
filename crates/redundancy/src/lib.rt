// Redundancy of a sequence with another, decided on the first one's vectors.
#![tactic(auto)]

ghost use Rattle.std.specs.Prelude.{◌≡◌, leb};
ghost use Rattle.theory_spec.specs.Sequences.{Numbered};
ghost use Rattle.model_spec.specs.Limits.{max_rules};
ghost use Rattle.model_spec.specs.Rules.{run_in, sequence_cost};
ghost use Rattle.macros_spec.specs.Composition.{lines_of};
ghost use Rattle.macros_spec.specs.Redundancy.{ends_in, last_number, redundant_by_lines, TellsRedundancy};

use macros_spec::Vectors;
use model_spec::{MAX_RULES, PLACE_COUNT, RuleSet};
use moves::{cost_of, has_unknown_move};
use states::{after, runs};

// The number of a set's last rule, which is at most 31.
fn last_number(set: RuleSet) -> u8
    ensures { result ≡ last_number set }
{
    set.count.min(MAX_RULES)
}

// Whether a sequence costs at most this.
fn costs_at_most(set: RuleSet, moves: &[u8], most: u16) -> bool
    ensures { result ≡ leb (sequence_cost set moves.now) most }
{
    cost_of(set, moves) <= u32::from(most)
}

// Whether the rules of a sequence run in turn on a condition, as on a state of entries, and end in the effect.
fn leads(
    set: RuleSet,
    moves: &[u8],
    condition: [u8; PLACE_COUNT],
    effect: [u8; PLACE_COUNT],
) -> bool
    requires { Numbered max_rules moves.now }
    ensures { result ≡ ends_in (run_in set moves.now condition) effect }
{
    let mut entries = condition;
    for number in moves {
        let rule = set.rules[(*number - 1) as usize];
        if !runs(&rule.condition, &entries) {
            return false;
        }
        entries = after(&rule.effect, &entries);
    }
    entries == effect
}

// Whether a sequence with these vectors and this cost is redundant with the witness, a sequence of the set's rules.
pub fn is_redundant(set: RuleSet, sequence: Vectors, cost: u16, witness: &[u8]) -> bool
    ensures { (result ≡ redundant_by_lines set (lines_of sequence) cost witness.now)
        × TellsRedundancy set sequence cost witness.now result }
{
    let last = last_number(set);
    if has_unknown_move(last, witness) {
        return false;
    }
    if !costs_at_most(set, witness, cost) {
        return false;
    }
    if !sequence.admitted {
        return true;
    }
    leads(set, witness, sequence.condition, sequence.effect)
}
