// The endpoint, the IPS end of the router: every call of documents 01 and 02, on a state that stands in lent words and on a memory that the caller lends with them.
//
// `words_for` says how many words a number of channels asks for. `start` takes a configuration in words (the Datalink ID, the count of channels, HelloTime and silence limit, which
// of the statuses 8 to 15 are operational, then for each channel its ID, its kind, its first sequence and the length of its store) and writes the first state into the words; the memory has one store after the other.
// From then on each call takes words and memory as the one before left them:
// - `offer` hands in a packet with its expiry for a channel, `next` writes the message of the next packet that may go, `withdraw` empties a channel;
// - `hand_in` takes a datagram from the radio, with its time: channel statuses, flow windows, Link Instance and Context;
// - `pace` asks the pacer whether a query is due and whether the radio is silent;
// - `query` writes the query with the Flow Sequences, and changes nothing;
// - `find_channel`, `kept` and `pacer` tell what stands in the words.
// An answer says what was done, or is a `Refusal` with its number: then every word, the memory and the output are as they were.
#![tactic(auto)]

pub mod begin;
pub mod call;
mod channel;
pub mod pacing;
pub mod queries;
pub mod radio;
pub mod shown;

pub use begin::{MOST_WORDS, start, words_for};
pub use call::{next, offer, withdraw};
pub use ips_channel::state::{Channel, Setting};
pub use ips_channel_calls::asking::NextAnswer;
pub use ips_radio::RadioAnswer;
pub use ips_words::layout::{HEAD, SLOT};
pub use ips_words_start::layout::{CONFIGURATION_HEAD, CONFIGURATION_SLOT};
pub use ips_words_survey::place::Found;
pub use meaning::message::ContextBytes;
pub use pacer::{PaceAnswer, Pacer};
pub use pacing::pace;
pub use quantity::count::{ByteCount, DatalinkId, FlowSequence, LinkInstanceId};
pub use quantity::refusal::Refusal;
pub use queries::query;
pub use radio::hand_in;
pub use shown::{ChannelShown, KeptShown, find_channel, kept, pacer};
