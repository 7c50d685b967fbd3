// The sequences of at most three rules by their indices, and what the tables need to know of each.
#![tactic(auto)]

ghost use Rattle.std.specs.Prelude.{◌≡◌, ◌≤◌, length, drop};
ghost use Rattle.theory_spec.specs.Sequences.{Numbered};
ghost use Rattle.model_spec.specs.Limits.{max_rules};
ghost use Rattle.model_spec.specs.Rules.{sequence_cost};
ghost use Rattle.macros_spec.specs.Composition.{composed, as_vectors};
ghost use Rattle.tables_laws.specs.How.ShortSequences.{short_sequence};

use composition::{empty, extended};
use model_spec::{MAX_RULES, RuleSet};
use tables_laws::{Profile, ShortSequence};

// The sequence of an index, of at most three rules: the last three of a longer one. Its last rule is found first.
// A number of rules outside 1 to 31 counts as the nearest of these.
pub fn sequence_at(count: u8, index: usize) -> ShortSequence
    ensures { (result.start ≤ 3)
        × (drop result.start result.rules ≡ short_sequence count index) }
{
    let many = count.clamp(1, MAX_RULES) as usize;
    let mut rules = [0; 3];
    let mut start = 3;
    let mut rest = index;
    // a `for` over the places is no plainer: it would need a return where nothing is left
    while 0 < start && 0 < rest {
        let before = rest - 1;
        start -= 1;
        rules[start] = (before % many) as u8 + 1;
        rest = before / many;
    }
    ShortSequence { start, rules }
}

// The vectors of a sequence, and its cost.
fn profile_of(set: RuleSet, moves: &[u8]) -> Profile
    requires { Numbered max_rules moves.now
        × (length moves.now ≤ 3) }
    ensures { let sequence = moves.now in
        (result.vectors ≡ as_vectors (composed set sequence))
        × (result.cost ≡ sequence_cost set sequence) }
{
    let mut vectors = empty(set);
    let mut cost = 0;
    for number in moves {
        let rule = set.rules[(*number - 1) as usize];
        vectors = extended(vectors, rule);
        cost += rule.cost as u16;
    }
    Profile { vectors, cost }
}

// The vectors and the cost of the sequence of an index, as `sequence_at` has it.
pub fn profile_at(set: RuleSet, index: usize) -> Profile
    ensures { let sequence = short_sequence set.count index in
        (result.vectors ≡ as_vectors (composed set sequence))
        × (result.cost ≡ sequence_cost set sequence) }
{
    let sequence = sequence_at(set.count, index);
    profile_of(set, &sequence.rules[sequence.start..])
}
