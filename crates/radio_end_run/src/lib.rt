// No code: any sequence of calls of the radio's end, as specs and laws; the code of the calls is on lent words.
#![tactic(auto)]
