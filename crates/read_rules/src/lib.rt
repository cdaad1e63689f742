// The order of tests that a message is read by, for any sort of message.
#![tactic(auto)]

pub mod answer;
