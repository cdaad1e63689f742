// The message of the radio's end, from its words and a change that is not in them yet.
#![tactic(auto)]

pub mod message;
pub mod tables;
