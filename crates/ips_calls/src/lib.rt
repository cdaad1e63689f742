// No code: reply and world of each call, as specs and laws; the code of the calls is on lent words.
#![tactic(auto)]
