// The exports of the library `nespovarda_station`: a static library for C, Rust and C++, one call for each that a router makes.
#![tactic(auto)]

pub mod calls;
pub mod shown;
