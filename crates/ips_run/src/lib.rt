// Any sequence of calls, and that each channel is served as its simple channel would be. Definitions and their proofs; no code.
#![tactic(auto)]
