// Number 19 over words, and where a channel and its store stand.
#![tactic(auto)]

pub mod limits;
pub mod place;
pub mod survey;
