// Macros of sequences, and redundancy on a sequence's vectors: types, definitions and laws.
#![tactic(auto)]

use model_spec::PLACE_COUNT;

// A macro (source document 003: a macro-operator): two vectors in the form of a rule's lines, and the summed cost.
#[derive(Clone, Copy)]
pub struct Macro {
    pub condition: [u8; PLACE_COUNT],
    pub effect: [u8; PLACE_COUNT],
    pub cost: u16,
}

// The positions that are read and those that are written, as two sets: the lowest bit for position 1.
#[derive(Clone, Copy)]
pub struct Touched {
    pub reads: u16,
    pub writes: u16,
}

// What the macro call gives: the outcome, 0, 7, 11, 13 or 17, the macro, and the positions that it reads and writes;
// macro and sets are all zeros when refused.
#[derive(Clone, Copy)]
pub struct MacroAnswer {
    pub outcome: u8,
    pub result: Macro,
    pub touched: Touched,
}

// The vectors of a sequence, without its cost; zeros where no state admits it.
#[derive(Clone, Copy)]
pub struct Vectors {
    pub admitted: bool,
    pub condition: [u8; PLACE_COUNT],
    pub effect: [u8; PLACE_COUNT],
}
