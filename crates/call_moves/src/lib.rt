// No code: the packets that count as leaving by a call are those that leave, and no way to have them leave moves fewer bytes.
#![tactic(auto)]
