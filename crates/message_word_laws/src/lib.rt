// No code: the words of a message in plain numbers, and which words say something.
#![tactic(auto)]
