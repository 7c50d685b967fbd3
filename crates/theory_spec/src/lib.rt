// The theory of pruning, over any transition system: definitions and laws alone.
#![tactic(auto)]
