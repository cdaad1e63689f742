// The text form of lines: words, numbers in decimal, and byte strings in hexadecimal, read and laid into an output.
#![tactic(auto)]

mod laying;
mod numbers;
mod strings;
mod words;

pub use laying::{put, put_number, put_signed};
pub use numbers::parse;
pub use strings::{put_bytes, unhex};
pub use words::{beyond, head, tail, word};
