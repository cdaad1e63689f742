// Offer, Next and Withdraw on one channel and its store.
#![tactic(auto)]

pub mod asking;
pub mod offering;
pub mod outcome;
