// A tally for each client (document 02, request 2026-07: desk): definitions and laws. The type `Tally` is in
// `search_spec`, the code in `client_tallies` and `client_search`.
#![tactic(auto)]
