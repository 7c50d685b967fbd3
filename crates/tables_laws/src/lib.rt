// How the builder and the check of tables go about it: types, definitions that their functions promise, and laws.
#![tactic(auto)]

use macros_spec::Vectors;

// A sequence of at most three rules, by their numbers: those of the array from `start` on. No method gives the slice:
// by a rule of the project a crate of definitions has no function.
#[derive(Clone, Copy)]
pub struct ShortSequence {
    pub start: usize,
    pub rules: [u8; 3],
}

// A sequence's vectors and its cost.
#[derive(Clone, Copy)]
pub struct Profile {
    pub vectors: Vectors,
    pub cost: u16,
}
