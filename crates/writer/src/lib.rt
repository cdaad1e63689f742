// Writing a message of either end and either plane.
#![tactic(auto)]

pub mod answer;
pub mod control;
pub mod data;
