// What the four messages mean, and which options each may hold.
#![tactic(auto)]

pub mod kind;
pub mod message;
pub mod status;
