// The search for the smallest witness of a sequence: earlier sequences are run on its condition vector, as on a state
// of entries, by length and rule number, and each is left as soon as a rule does not run there or the cost passes the
// sequence's own.
#![tactic(auto)]

ghost use Rattle.std.specs.Prelude.{◌≡◌, ◌-◌, ◌≤◌, ◌<◌};
ghost use Rattle.std.proofs.Math.Option.{some};
ghost use Rattle.theory_spec.specs.Sequences.{level, sequences};
ghost use Rattle.model_spec.specs.Limits.{max_rules};
ghost use Rattle.macros_spec.specs.Composition.{lines_of};
ghost use Rattle.tables_spec.specs.Table.{sequence_count};
ghost use Rattle.tables_laws.specs.How.Witnesses.{serves};
ghost use Rattle.tables_laws.specs.How.Searches.{find_behind, find_witness};

use macros_spec::Vectors;
use model_spec::{MAX_RULES, PLACE_COUNT, RuleSet};
use states::after;
use witness_rules::{goes_on, index_behind, with_one_more};

// Behind the sequence of `index`, which has led to these entries and left so much to spend: the index of the first
// sequence with `more` rules more, from 1 to 3, that leads to the target, if one does.
fn with_more(
    set: RuleSet,
    more: usize,
    index: u16,
    entries: &[u8; PLACE_COUNT],
    left: u16,
    target: &[u8; PLACE_COUNT],
) -> Option<usize>
    requires { (1 ≤ more)
        × (more ≤ 3)
        × (set.count ≤ max_rules)
        × (index < sequence_count set.count (3 - more)) }
    ensures { let lines = some (record { condition = entries.now; effect = target.now }) in
        result ≡ find_behind set.count index (serves set lines left) (level set.count more) }
{
    if more == 1 {
        return with_one_more(set, index, entries, left, target);
    }
    for k in 0..set.count {
        let rule = set.rules[k as usize];
        if goes_on(rule, entries, left) {
            let next = after(&rule.effect, entries);
            let behind = index_behind(index, set.count, k + 1) as u16;
            let rest = left - rule.cost as u16;
            let found = with_more(set, more - 1, behind, &next, rest, target);
            if found.is_some() {
                return found;
            }
        }
    }
    None
}

// The smallest index of a sequence of at most three rules with which one with these vectors and this cost is redundant,
// if there is one; none for a set of more than 31 rules.
pub fn smallest_witness(set: RuleSet, sequence: Vectors, cost: u16) -> Option<usize>
    ensures { result ≡ find_witness set 0 (lines_of sequence) cost (sequences set.count 3) }
{
    if MAX_RULES < set.count {
        return None;
    }
    if !sequence.admitted || sequence.condition == sequence.effect {
        return Some(0);
    }
    for more in 1..4 {
        let found = with_more(set, more, 0, &sequence.condition, cost, &sequence.effect);
        if found.is_some() {
            return found;
        }
    }
    None
}
