// Rules on states: what an entry stands for, whether a rule runs, where it leads.
#![tactic(auto)]

ghost use Rattle.std.specs.Prelude.{◌≡◌};
ghost use Rattle.theory_spec.specs.Lists.{same};
ghost use Rattle.model_spec.specs.States.{value_of, applicable, successor};

use model_spec::{FIRST_VARIABLE, MAX_POSITIONS, PLACE_COUNT};

// What an entry stands for in a state: the constant, or what the state holds at the variable's position.
pub fn value(entry: u8, state: &[u8; PLACE_COUNT]) -> u8
    ensures { result ≡ value_of entry state.now }
{
    if entry < FIRST_VARIABLE {
        return entry;
    }
    let place = (entry % MAX_POSITIONS) as usize;
    state[place]
}

// Whether a rule with this condition runs in the state: each place holds what the entry there stands for.
pub fn runs(condition: &[u8; PLACE_COUNT], state: &[u8; PLACE_COUNT]) -> bool
    ensures { result ≡ applicable condition.now state.now }
{
    condition
        .iter()
        .zip(state)
        .all(|(entry, held)| value(*entry, state) == *held)
}

// The state that an effect leads to; all its entries are read in the state before.
pub fn after(effect: &[u8; PLACE_COUNT], state: &[u8; PLACE_COUNT]) -> [u8; PLACE_COUNT]
    ensures { result ≡ successor effect.now state.now }
{
    // no `map`: for an array it is compiled to code that takes many times as long, and a table's check has a speed bar
    let mut next = *effect;
    for entry in &mut next {
        *entry = value(*entry, state);
    }
    next
}

// Whether two lists of sixteen entries, or two states, are equal.
pub fn same_entries(a: &[u8; PLACE_COUNT], b: &[u8; PLACE_COUNT]) -> bool
    ensures { result ≡ same a.now b.now }
{
    a == b
}
