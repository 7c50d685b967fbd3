// Texts laid over a buffer: definitions that its functions promise, and laws.
#![tactic(auto)]
