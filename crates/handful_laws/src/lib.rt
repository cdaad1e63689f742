// Offers by the handful once more, in literal numbers and plain facts, and demand 3 with handfuls among the calls. Definitions and their proofs; no code.
#![tactic(auto)]
