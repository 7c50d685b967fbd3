// The states of a search, to the positions only: the start, whether a rule goes on, and where its effect leads.
#![tactic(auto)]

ghost use Rattle.std.specs.Prelude.{◌≡◌, ◌<◌, ◌&&◌, true, min, leb, eqb, take};
ghost use Rattle.theory_spec.specs.Lists.{padded};
ghost use Rattle.model_spec.specs.Limits.{place_count};
ghost use Rattle.model_spec.specs.States.{successor};
ghost use Rattle.search_laws.specs.How.Visits.{meets_within, laid_over};

use model_spec::PLACE_COUNT;
use search_laws::Limits;
use states::value;

// The state of a start: 0 beyond its bytes.
pub fn start_state(start: &[u8]) -> [u8; PLACE_COUNT]
    ensures { result ≡ padded place_count 0 (take place_count start.now) }
{
    let mut state = [0u8; PLACE_COUNT];
    let end = start.len().min(PLACE_COUNT);
    state[..end].copy_from_slice(&start[..end]);
    state
}

// Whether a state meets a condition at the positions: as `states::runs`, but no place beyond them is read.
fn runs_within(positions: usize, condition: &[u8; PLACE_COUNT], state: &[u8; PLACE_COUNT]) -> bool
    ensures { result ≡ meets_within (min positions place_count) condition.now state.now }
{
    let end = positions.min(PLACE_COUNT);
    condition[..end]
        .iter()
        .zip(&state[..end])
        .all(|(entry, held)| value(*entry, state) == *held)
}

// Whether the search goes on by a rule: no mark is found, the cost bound allows it, and the rule runs. What it costs in
// all then fits the 16 bits of a cost.
pub fn goes_on(
    limits: &Limits,
    block: u8,
    total: u32,
    condition: &[u8; PLACE_COUNT],
    state: &[u8; PLACE_COUNT],
) -> bool
    ensures goes { result
        ≡ ((leb total limits.now.max_cost && eqb block 0)
        && meets_within (min limits.now.positions place_count) condition.now state.now) }
    ensures fits { result ≡ true → total < 65536 }
{
    block == 0 && total <= limits.max_cost as u32 && runs_within(limits.positions, condition, state)
}

// Puts the state that an effect leads to over another one, at the positions.
pub fn put_after(
    positions: usize,
    effect: &[u8; PLACE_COUNT],
    state: &[u8; PLACE_COUNT],
    next: &mut [u8; PLACE_COUNT],
)
    ensures { let after = successor effect.now state.now in
        next.new ≡ laid_over (min positions place_count) after next.old }
{
    for i in 0..positions.min(PLACE_COUNT) {
        next[i] = value(effect[i], state);
    }
}
