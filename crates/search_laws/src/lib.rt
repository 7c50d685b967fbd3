// How the search goes about it: the types that it passes along, definitions that its functions promise, and laws. No
// promise of a call needs these, only those of functions below the calls.
#![tactic(auto)]

use model_spec::MOVE_LIMIT;

// A plan that was met. Its moves are rule numbers, with 255 in every other byte.
#[derive(Clone, Copy)]
pub struct Plan {
    pub cost: u16,
    pub length: u8,
    pub moves: [u8; MOVE_LIMIT],
}

// How far the search has come: the sequences visited, at most the step limit; whether there are more than the limit;
// the best plan of those visited; the least cost of those met beyond the limit.
#[derive(Clone, Copy)]
pub struct Progress {
    pub steps: u32,
    pub exceeded: bool,
    pub best: Option<Plan>,
    pub least: u16,
}

// What stays the same all through a search: how many positions and rules the set has, the table's reach, the cost bound
// and the step limit.
#[derive(Clone, Copy)]
pub struct Limits {
    pub positions: usize,
    pub count: usize,
    pub reach: usize,
    pub max_cost: u16,
    pub step_limit: u32,
}
