// The lines of the station page, read: a command is a row of the table (table.rt) and what its numbers ask for (asked.rt).
#![tactic(auto)]

mod asked;
mod context;
mod line;
mod table;

pub use asked::{Asked, Command};
pub use context::context_said;
pub use line::{Line, configuration, read};
pub use table::PLACES;
