// What the C entries answer: definitions and laws.
#![tactic(auto)]
