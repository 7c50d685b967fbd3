// The listing of a rule file's pruning table: definitions and laws.
#![tactic(auto)]
