// Limits, rules and rule sets, states, validity, refusals and buffers: constants, types, definitions and laws.
#![tactic(auto)]

// A state (document 01: a yard), a condition and an effect are sixteen bytes each: one for each position, and 0 in the
// places beyond. An entry of a condition or an effect below 16 is that constant; 16 + k, for k from 0 to 15, is the
// variable of position k + 1.

// A set has at most 16 positions.
pub const MAX_POSITIONS: u8 = 16;

// The places of a state, a condition or an effect.
pub const PLACE_COUNT: usize = MAX_POSITIONS as usize;

// A position has at most 16 values.
pub const MAX_SIZE: u8 = 16;

// A set has at most 31 rules.
pub const MAX_RULES: u8 = 31;

// The places of its rules.
pub const RULE_PLACES: usize = MAX_RULES as usize;

// A rule costs at most 255.
pub const MAX_RULE_COST: u8 = 255;

// A sequence has at most 32 moves.
pub const MOVE_LIMIT: usize = 32;

// An entry below this is a constant; this one is the variable of position 1, and so on.
pub const FIRST_VARIABLE: u8 = 16;

// A rule: where it runs (the `if` line), where it leads (the `then` line), and what it costs.
#[derive(Clone, Copy, PartialEq, Eq, Debug)]
pub struct Rule {
    pub cost: u8,
    pub condition: [u8; PLACE_COUNT],
    pub effect: [u8; PLACE_COUNT],
}

// A rule set: `positions` sizes and `count` rules are used. A valid one is zero in every place beyond them; a caller
// may pass any.
#[derive(Clone, Copy, PartialEq, Eq, Debug)]
pub struct RuleSet {
    pub positions: u8,
    pub sizes: [u8; PLACE_COUNT],
    pub count: u8,
    pub rules: [Rule; RULE_PLACES],
}
