// What an accepted message is, said without an order of tests. Definitions and their proofs; no code.
#![tactic(auto)]
