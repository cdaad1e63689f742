// Reading and writing a message as a caller asks for it that shares no types with Rattle: numbers and slices.
#![tactic(auto)]

pub mod answer;
pub mod reading;
pub mod writing;
