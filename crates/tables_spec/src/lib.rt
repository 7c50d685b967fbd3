// Pruning tables (document 01: drop tables), over all states: definitions and laws alone, and a type.
#![tactic(auto)]

// How long a table is: the outcome, 0, 7 or 5, and the length in bytes, 0 when refused.
#[derive(Clone, Copy)]
pub struct TableSize {
    pub outcome: u8,
    pub length: usize,
}
