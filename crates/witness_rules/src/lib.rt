// The rules of a witness: whether one runs on entries, as on a state, for what is left to spend, and the last one,
// which has to lead to the target.
#![tactic(auto)]

ghost use Rattle.std.specs.Prelude.{◌≡◌, ◌&&◌, ◌+◌, ◌*◌, leb};
ghost use Rattle.std.proofs.Math.Option.{some};
ghost use Rattle.theory_spec.specs.Lists.{same};
ghost use Rattle.theory_spec.specs.Sequences.{level};
ghost use Rattle.model_spec.specs.States.{applicable, successor};
ghost use Rattle.tables_laws.specs.How.Searches.{find_witness};

use model_spec::{MAX_RULES, PLACE_COUNT, Rule, RuleSet};
use states::{runs, value};

// The index of a sequence with one more rule.
pub fn index_behind(index: u16, count: u8, number: u8) -> usize
    ensures { result ≡ index * count + number }
{
    (index as usize) * (count as usize) + (number as usize)
}

// Whether a rule runs on the entries, for at most `left`.
pub fn goes_on(rule: Rule, entries: &[u8; PLACE_COUNT], left: u16) -> bool
    ensures { result ≡ (leb rule.cost left && applicable rule.condition entries.now) }
{
    rule.cost as u16 <= left && runs(&rule.condition, entries)
}

// Whether an effect leads from these entries to the target. It ends at the first place that differs. A `for` over the
// places: three arrays are read side by side, and a chain of two `zip`s is no plainer.
fn leads_to(
    effect: &[u8; PLACE_COUNT],
    entries: &[u8; PLACE_COUNT],
    target: &[u8; PLACE_COUNT],
) -> bool
    ensures { result ≡ same (successor effect.now entries.now) target.now }
{
    for i in 0..PLACE_COUNT {
        if value(effect[i], entries) != target[i] {
            return false;
        }
    }
    true
}

// Whether a rule runs on the entries, for at most `left`, and leads to the target.
fn finishes(rule: Rule, entries: &[u8; PLACE_COUNT], left: u16, target: &[u8; PLACE_COUNT]) -> bool
    ensures { result ≡ (leb rule.cost left
        && (applicable rule.condition entries.now
        && same (successor rule.effect entries.now) target.now)) }
{
    leads_to(&rule.effect, entries, target) && goes_on(rule, entries, left)
}

// Behind the sequence of `index`, which has led to these entries and left so much to spend: the index of the first
// sequence with one more rule that leads to the target, if one does; none for a set of more than 31 rules.
pub fn with_one_more(
    set: RuleSet,
    index: u16,
    entries: &[u8; PLACE_COUNT],
    left: u16,
    target: &[u8; PLACE_COUNT],
) -> Option<usize>
    ensures { let lines = some (record { condition = entries.now; effect = target.now }) in
        result ≡ find_witness set index lines left (level set.count 1) }
{
    if MAX_RULES < set.count {
        return None;
    }
    for k in 0..set.count {
        let rule = set.rules[k as usize];
        if finishes(rule, entries, left, target) {
            return Some(index_behind(index, set.count, k + 1));
        }
    }
    None
}
