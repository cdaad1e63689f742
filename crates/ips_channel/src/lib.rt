// One channel by value: what it holds, and how it starts.
#![tactic(auto)]

pub mod state;
