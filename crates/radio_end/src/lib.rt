// The radio's end: every call of document 02, §3, on a state that stands in lent words.
//
// `words_for` says how many words a number of channels asks for. `start` takes a configuration in words (the Datalink ID, the count of channels, then for each
// channel its ID, its kind, its watermark and its throughput per period) and writes the first state. From then on each call takes the words as the one before left them:
// - `hear` takes a datagram of the IPS end: a control message is answered; a data message's packet is queued, and a message written if a window changed;
// - `tell_status`, `tell_queued`, `tell_context` and `tell_link` are told by the radio's own side, and write a message where a status, a window or the Context differs from before;
// - `tell` writes the message as it stands, and changes nothing;
// - `show` tells what stands in the words of a channel, and `window` the Flow Window that it is granted.
// An answer says what was written, or is a `Refusal` with its number: then every word and the output are as they were.
#![tactic(auto)]

pub mod begin;
pub mod shown;

pub use begin::words_for;
pub use meaning::message::ContextBytes;
pub use quantity::count::{ByteCount, FlowSequence, LinkInstanceId};
pub use quantity::refusal::Refusal;
pub use radio_end_hearing::hear;
pub use radio_end_start::start;
pub use radio_end_state::answer::Answer;
pub use radio_end_state::channel::{Channel, Setting, window};
pub use radio_end_telling::{tell, tell_context, tell_link, tell_queued, tell_status};
pub use shown::show;
