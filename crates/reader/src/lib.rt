// Reading a message of either end and either plane, and the packet that a data message carries.
#![tactic(auto)]

pub mod answer;
pub mod control;
pub mod data;
pub mod header;

pub use read_data::packet;
