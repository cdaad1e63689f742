// The answers of the station page: what a call of the radio's end came to, and what a channel is.
#![tactic(auto)]

mod answers;
mod shown;

pub use answers::{answered, bad_line, started};
pub use shown::channel;
