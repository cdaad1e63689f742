// The radio's own side tells its end: a status, bytes queued, the Context, the Link Instance; and the message as it stands. Every call is on a state that stands in
// lent words. An answer says what was written, or is a `Refusal` with the document's number: then every word and the output are as they were.
#![tactic(auto)]

pub mod locate;
pub mod settle;
pub mod telling;

pub use radio_end_state::answer::Answer;
pub use telling::{tell, tell_context, tell_link, tell_queued, tell_status};
