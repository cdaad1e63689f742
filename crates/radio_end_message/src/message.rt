// The message built, and written.
ghost use Rattle.std.specs.Prelude.{◌≡◌, true};
ghost use Rattle.writer.specs.Written.{Outcome};
ghost use Rattle.radio_end_state.specs.Message.{message_of, message_bytes};
ghost use Rattle.radio_end_words.specs.Words.{state_in};
ghost use Rattle.radio_end_message.specs.Changed.{changed, Change};

use crate::tables;
use meaning::message::{ContextBytes, Control, End};
use quantity::count::{ByteCount, FlowSequence};
use quantity::limit::CHANNEL_IDS;
use quantity::refusal::Refusal;
use radio_end_state::channel::Channel;
use radio_end_words::head;

fn build(
    words: &[u64],
    context: Option<(ContextBytes, usize)>,
    index: usize,
    channel: Channel,
    sequences: [Option<FlowSequence>; CHANNEL_IDS],
) -> Control
    requires { Change (state_in words.now) context index channel }
    ensures { result ≡ message_of (changed (state_in words.now) context index channel sequences) }
{
    let filled = tables::fill(words, index, channel, sequences);
    let statuses = filled.statuses;
    let windows = filled.windows;
    let datalink = head::datalink(words);
    let instance = head::instance(words);
    Control {
        datalink: Some(datalink),
        instance,
        context,
        statuses,
        sequences: [None; CHANNEL_IDS],
        windows,
    }
}

// 18 is judged before a byte is touched; the message is always allowed. The change stands in four parameters, as `Change` and `changed` name them.
pub fn write(
    words: &[u64],
    context: Option<(ContextBytes, usize)>,
    index: usize,
    channel: Channel,
    sequences: [Option<FlowSequence>; CHANNEL_IDS],
    out: &mut [u8],
) -> Result<ByteCount, Refusal>
    requires { Change (state_in words.now) context index channel }
    ensures { Outcome true (message_bytes (changed (state_in words.now) context index channel sequences)) out.old result out.new }
{
    let message = build(words, context, index, channel, sequences);
    writer::control::write(End::Radio, message, out)
}
