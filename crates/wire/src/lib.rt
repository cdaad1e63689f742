// How numbers and options lie in a datagram (source document 000, sections 3.1 and 3.2).
#![tactic(auto)]

pub mod number;
pub mod option;
