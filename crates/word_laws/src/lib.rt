// The state in lent words once more, in literal numbers and plain facts. Definitions and their proofs; no code.
#![tactic(auto)]
