// The answers of the session page: what a message means or is written as, the endpoint's answers, what a channel is, and what a state keeps.
#![tactic(auto)]

mod answers;
mod echo;
mod messages;
mod offers;
mod reading;
mod shown;

pub use answers::{asked, emptied, heard, offered, paced, queried, started};
pub use messages::{about_state, bad_line, message};
pub use offers::handed;
pub use shown::{channel, held, kept, pacer};
