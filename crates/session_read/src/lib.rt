// The lines of the session page, read: a command is a row of the table (table.rt) and what its numbers ask for (asked.rt).
#![tactic(auto)]

mod asked;
mod configuration;
mod line;
mod offers;
mod start;
mod table;
mod words;

pub use asked::{Asked, Command};
pub use configuration::CONFIGURATION_WORDS;
pub use line::{Line, read};
pub use offers::{ListCounts, MOST_LISTED};
pub use start::StartWords;
