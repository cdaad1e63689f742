// The library that a router links: every call as a function of C, numbers and slices only.
//
// A slice is a pointer and a length, an array of numbers a pointer alone. Nothing is asked of what is lent but that it is the caller's, and that what is written
// overlaps nothing else that is lent. Each answer is two numbers, a kind and a value (crate answer_codes has the kinds).
#![tactic(auto)]

pub mod answer;
pub mod calls;
pub mod messages;
pub mod offers;
pub mod shown;
