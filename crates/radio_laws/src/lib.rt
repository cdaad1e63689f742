// No code: what a radio message, handed in as it should be on a state, leaves, option by option; the code's own outcome is on lent words, in `endpoint`.
#![tactic(auto)]
