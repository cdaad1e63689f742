// The radio's end by value: one channel, what a message and the radio's own side make of it, and the answers of the calls. The state is told by specs and laws;
// code holds it in lent words.
#![tactic(auto)]

pub mod answer;
pub mod channel;
