// One look-up for all segments that end in the newest rule: a byte for each index, whether a suffix of its sequence is
// marked.
#![tactic(auto)]

ghost use Rattle.std.specs.Prelude.{◌≡◌, ◌+◌, ◌*◌, ◌-◌, ◌≤◌, ◌<◌, min, take, drop};
ghost use Rattle.theory_spec.specs.How.Indices.{index_of, sequence_of};
ghost use Rattle.theory_spec.specs.How.Recursion.{last};
ghost use Rattle.model_spec.specs.Limits.{max_rules, move_limit};
ghost use Rattle.tables_spec.specs.Table.{sequence_count};
ghost use Rattle.search_laws.specs.How.Lookup.{LooksUp};

use model_spec::{MAX_RULES, MOVE_LIMIT};
use tables::{KEPT, entry_at, sequence_count};

// The index of a sequence of one to three rules without its first rule.
fn tail_index(count: usize, index: usize) -> usize
    requires { (1 ≤ count) × (count ≤ max_rules) × (1 ≤ index) × (index < sequence_count count 3) }
    ensures { (result ≡ index_of count (drop 1 (sequence_of count 3 index))) × (result < index) }
{
    let before = (index - 1) / count;
    if before == 0 {
        return 0;
    }
    let newest = (index - 1) % count + 1;
    if before <= count {
        return newest;
    }
    ((before - 1) % count + 1) * count + newest
}

// The look-up of a table, by how many rules the set has, of which 31 count: a suffix of a sequence is the sequence
// itself, or one of what is left without its first rule.
pub fn lookup_of(count: u8, table: &[u8]) -> [u8; 30784]
    ensures { LooksUp (min count max_rules) table.now result }
{
    let rules = count.min(MAX_RULES);
    let end = (table.len() / 2).min(sequence_count(rules, 3));
    // a byte for each sequence of at most three of 31 rules
    let mut blocked = [0u8; 30784];
    for i in 1..end {
        let tail = tail_index(rules as usize, i);
        blocked[i] = if entry_at(table, i) == KEPT {
            blocked[tail]
        } else {
            1
        };
    }
    blocked
}

// The place in the look-up of a sequence's last `reach` - 1 rules, at most two, with rule 1 behind them; the places of
// the other rules follow. The sequence is the first `depth` moves of the plan.
pub fn first_place(reach: usize, count: u8, plan: &[u8; MOVE_LIMIT], depth: u8) -> usize
    ensures { result ≡ index_of count (last (min (reach - 1) 2) (take depth plan.now)) * count + 1 }
{
    if reach <= 1 {
        return 1;
    }
    if depth == 0 {
        return 1;
    }
    let end = (depth as usize).min(MOVE_LIMIT);
    let rules = count as usize;
    let newest = plan[end - 1] as usize;
    if reach == 2 {
        return newest * rules + 1;
    }
    if depth == 1 {
        return newest * rules + 1;
    }
    let before = plan[end - 2] as usize;
    (before * rules + newest) * rules + 1
}
