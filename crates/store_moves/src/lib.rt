// No code: how few moves of a byte can bring the packets that stay to the store's start.
#![tactic(auto)]
