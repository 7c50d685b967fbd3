// The positions that the marked sequences of a pruning table read and write: definitions and laws, and a type.
#![tactic(auto)]

use macros_spec::Touched;

// What the builder and the check give: the outcome, and the positions that some marked sequence of the table reads and
// writes, none when refused.
#[derive(Clone, Copy)]
pub struct TableAnswer {
    pub outcome: u8,
    pub touched: Touched,
}
