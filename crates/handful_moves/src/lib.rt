// No code: the bytes that a handful moves, store by store, and no way to have the same packets leave moves fewer.
#![tactic(auto)]
