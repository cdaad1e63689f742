// No code: what the radio's end writes is accepted by the endpoint, as a law over the definitions of both.
#![tactic(auto)]
