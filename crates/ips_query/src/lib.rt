// No code: the message of Query, as specs and laws; code writes it out of lent words.
#![tactic(auto)]
