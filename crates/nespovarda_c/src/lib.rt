// The exports of the library `nespovarda`: a static library for C, Rust and C++, one call for each that a router makes.
#![tactic(auto)]

pub mod calls;
pub mod messages;
pub mod offers;
pub mod shown;
