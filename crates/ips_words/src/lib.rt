// The state in lent words: where each number stands, a channel loaded and saved, and the words of the endpoint itself.
#![tactic(auto)]

pub mod head;
pub mod layout;
pub mod slot;
pub mod waiting;
