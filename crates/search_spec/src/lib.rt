// Queries: what a search is asked and answers, the plan handed back and the tally. Types, definitions and laws; the
// code is in `search`, `answers`, `tally` and `tallied_search`.
#![tactic(auto)]

// What a search is asked: the table and its reach, the start, the goal, the move bound, the cost bound and the step
// limit.
#[derive(Clone, Copy)]
pub struct Query<'a> {
    pub reach: usize,
    pub table: &'a [u8],
    pub start: &'a [u8],
    pub goal: &'a [u8],
    pub max_moves: usize,
    pub max_cost: u16,
    pub step_limit: u32,
}

// What a search gives beside the plan buffer.
#[derive(Clone, Copy)]
pub struct Answer {
    // 0: the cheapest plan; 18: a plan at the step limit; any other number: why there is none
    pub outcome: u8,
    // the plan's cost, and how many moves it has; 0 where there is none
    pub cost: u16,
    pub length: u8,
    // the number of visited sequences (document 01: walked), at most the step limit; 0 when refused
    pub steps: u32,
    // with 18: no plan within the bounds costs less; otherwise 0
    pub floor: u16,
}

// A caller's tally of its queries by outcome, and the sum of their steps. Each count stays at its top value.
#[derive(Clone, Copy)]
pub struct Tally {
    // outcome 0: the cheapest plan found
    pub solved: u64,
    // outcome 15: no plan within the bounds
    pub unsolvable: u64,
    // outcomes 16 and 18: the step limit exceeded (document 02: spent)
    pub limited: u64,
    // every other outcome
    pub refused: u64,
    pub steps: u64,
}

// The byte of the plan buffer where there is no move.
pub const NO_MOVE: u8 = 255;

// The byte of a goal that asks for nothing.
pub const ANY_VALUE: u8 = 255;
