// The sorts of quantity that document 01 keeps apart, its limits and refusals, and the count of a flow.
#![tactic(auto)]

pub mod count;
pub mod limit;
pub mod refusal;
