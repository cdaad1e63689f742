// The state of the radio's end in lent words: where each number stands, a channel loaded and saved, the words of the radio itself, and where a channel is found.
#![tactic(auto)]

pub mod head;
pub mod layout;
pub mod place;
pub mod rows;
pub mod slot;
