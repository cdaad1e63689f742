// No code: what each call of the radio's end answers and leaves, in plain facts; the code of the calls is on lent words.
#![tactic(auto)]
