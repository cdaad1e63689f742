// Facts that no crate owns: of tests, of lists, and of tables over places. No code.
#![tactic(auto)]
