// No code: what a record adds to the counts, in literal bytes and places; the counting is `census`.
#![tactic(auto)]
