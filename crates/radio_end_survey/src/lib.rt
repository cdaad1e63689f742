// Number 19 of the radio's end over its words.
#![tactic(auto)]

mod limits;
pub mod survey;
