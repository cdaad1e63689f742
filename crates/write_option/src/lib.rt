// Laying a message's parts down, each in the rest of an output behind the one before.
#![tactic(auto)]

pub mod option;
pub mod size;
pub mod table;
