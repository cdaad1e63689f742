// One channel's store: the waiting packets end to end, and the queue of their lengths and expiries.
#![tactic(auto)]

pub mod queue;
mod stretch;
pub mod waiting;
