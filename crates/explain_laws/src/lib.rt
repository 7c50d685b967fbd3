// How an explanation is come by: types, definitions that the functions promise, and laws.
#![tactic(auto)]

// A reason against a proposal. A move or a position is counted from 1.
#[derive(Clone, Copy)]
pub enum Reason {
    // it has more moves than the bound
    OverMoveBound,
    // it cannot be run up to this move
    CannotRun(usize),
    // up to this move it costs more than the bound
    OverCostBound(usize),
    // where it ends, this position is not what the goal asks for
    OffGoal(usize),
    // it costs more than the plan
    Dearer { cost: u16, plan_cost: u16 },
    // it costs as much as the plan and comes later in the order
    Later,
    // it is the plan
    IsPlan,
}

// A segment: its last move, from 1, and how many moves it has.
#[derive(Clone, Copy)]
pub struct Segment {
    pub end: usize,
    pub length: u8,
}

// A sequence of at most three rules: how many, their numbers, and zeros behind them, as an explanation holds it.
#[derive(Clone, Copy)]
pub struct Witness {
    pub length: u8,
    pub rules: [u8; 3],
}
