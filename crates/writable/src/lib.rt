// Number 20: whether a meaning may be written.
#![tactic(auto)]

pub mod control;
pub mod data;
pub mod part;
