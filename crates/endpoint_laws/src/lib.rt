// No code: what the answers of calls as they should be on a state come to, in plain facts; the code's own answers are on lent words, in `endpoint`.
#![tactic(auto)]
