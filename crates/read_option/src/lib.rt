// What one option of a message states.
#![tactic(auto)]

pub mod answer;
pub mod option;
