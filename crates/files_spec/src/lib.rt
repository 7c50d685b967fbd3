// The rule file: types, definitions and laws. The code is in `reader` and `writer`.
#![tactic(auto)]

use model_spec::RuleSet;

// What reading a text gives: the outcome, 0 or 1 to 4, and the set, which is zero throughout when refused.
#[derive(Clone, Copy)]
pub struct Reading {
    pub outcome: u8,
    pub set: RuleSet,
}

// What writing a set gives beside the text: the outcome, 0, 7 or 8, and the text's length, 0 when refused.
#[derive(Clone, Copy)]
pub struct Written {
    pub outcome: u8,
    pub length: usize,
}
