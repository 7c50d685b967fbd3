// How the listing is laid from the bytes of a table: definitions that its functions promise, and laws.
#![tactic(auto)]
