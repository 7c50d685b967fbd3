// Explanations: why a proposed sequence is not the plan (document 02, request 2026-06). A type, definitions and laws;
// the code is in `explain` and the crates below it.
#![tactic(auto)]

// The answer: the outcome of the query and, with 0 and 15, the first reason that holds of the proposal, and its first
// marked segment. With every other outcome all else is 0.
#[derive(Clone, Copy)]
pub struct Explanation {
    // as of a search with room for every plan, but for 13: a move of the proposal is no rule's number
    pub outcome: u8,
    // 0: none; 1: over the move bound; 2: cannot be run; 3: over the cost bound; 4: off the goal; 5: dearer than the
    // plan; 6: as cheap, but later; 7: it is the plan
    pub reason: u8,
    // the number of the move (reasons 2 and 3) or of the position (4), from 1; else 0
    pub place: u8,
    // with reason 5 the costs of the proposal and of the plan; else 0
    pub cost: u16,
    pub plan_cost: u16,
    // the marked segment that ends soonest, the shorter at equal end: its last move, from 1, and how many moves it has;
    // 0 where no segment is marked
    pub segment_end: usize,
    pub segment_length: u8,
    // the witness that the table names for it: how many rules, their numbers, and zeros behind them
    pub witness_length: u8,
    pub witness: [u8; 3],
}
