// No code: both libraries joined by a net that loses, repeats and delays, of their exported calls.
#![tactic(auto)]
