// The worked cases of document 01, proved of the definitions.
#![tactic(auto)]
