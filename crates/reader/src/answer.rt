// What a reader answers.
use quantity::refusal::Refusal;
pub use read_control::ControlReading;
pub use read_data::{CarriedReading, DataReading};
pub use read_rules::answer::Verdict;
