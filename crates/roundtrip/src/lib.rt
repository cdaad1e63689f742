// What is written is read back as the same meaning, at either end and in either plane. Definitions and their proofs; no code.
#![tactic(auto)]
