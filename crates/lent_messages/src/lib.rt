// The meaning of a message in lent words of 64 bits: each thing that it may state is a tag, and the words of what is stated.
#![tactic(auto)]

pub mod control;
pub mod data;
pub mod layout;
pub mod stated;
