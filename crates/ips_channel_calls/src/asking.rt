// Next, on a channel and its store. Number 19 was tested, and the channel found: `Ready` is what that gives.
ghost use Rattle.std.specs.Prelude.{◌≡◌, true, length, Ok};
ghost use mathlib.Core.List.{tail};
ghost use Rattle.writer.specs.Written.{Outcome};
ghost use Rattle.store.specs.Packets.{alive, first_bytes};
ghost use Rattle.store.specs.Moves.{expiring, sending};
ghost use Rattle.store.specs.Waiting.{packets_of};
ghost use Rattle.ips_channel_rules.specs.Rules as rules;
ghost use Rattle.ips_channel_rules.specs.Rules.{message_of, message_bytes};
ghost use Rattle.ips_channel.specs.Channel.{terms_of};
ghost use Rattle.ips_channel_calls.specs.Calls.{asked, Ready, Serves, Moves, AnsweredWith};

use crate::outcome::{CallOutcome, refused};
use ips_channel::state;
use ips_channel::state::{Channel, DatalinkSetting, Setting};
use meaning::message::{Data, End};
use meaning::status;
use quantity::count::{ByteCount, FlowSequence};
use quantity::refusal;
use quantity::refusal::Refusal;
use store::waiting;

#[derive(Clone, Copy)]
pub enum NextAnswer {
    // The message's length.
    Sent(ByteCount),
    NothingWaiting,
    NotOperational,
    WindowShut,
}

// The bytes of the first packet that is not expired; 0: none waits.
fn first_length(channel: Channel, store: &[u8], time: u64) -> ByteCount
    requires { Ready channel store.now }
    ensures { result ≡ record { 0 = length (first_bytes (alive time (packets_of channel.queue store.now))) } }
{
    ByteCount(waiting::peek(channel.queue, store, time).len())
}

// The expired packets leave, and no other: the answer says why.
fn expired(
    channel: Channel,
    store: &mut [u8],
    time: u64,
    answer: NextAnswer,
) -> CallOutcome<NextAnswer>
    requires { Ready channel store.old }
    ensures { AnsweredWith channel (Ok answer) (alive time (packets_of channel.queue store.old)) channel.sequence time (expiring time (packets_of channel.queue store.old)) result store.new }
{
    let left = waiting::expire(channel.queue, store, time);
    CallOutcome {
        answer: Ok(answer),
        channel: state::with_queue(channel, left.queue, time),
        moved: left.moved,
    }
}

// The expired packets leave, and the first of the others, which is counted: its message has this length.
fn sent(
    channel: Channel,
    store: &mut [u8],
    sequence: FlowSequence,
    time: u64,
    length: ByteCount,
) -> CallOutcome<NextAnswer>
    requires { Ready channel store.old }
    ensures { AnsweredWith channel (Ok (NextAnswer.Sent length)) (tail (alive time (packets_of channel.queue store.old))) sequence time (sending time (packets_of channel.queue store.old)) result store.new }
{
    let left = waiting::pop(channel.queue, store, time);
    CallOutcome {
        answer: Ok(NextAnswer::Sent(length)),
        channel: Channel {
            sequence,
            ..state::with_queue(channel, left.queue, time)
        },
        moved: left.moved,
    }
}

// The message that carries the first packet.
fn carrier(datalink: DatalinkSetting, setting: Setting, sequence: Option<FlowSequence>) -> Data
    ensures { result ≡ message_of (terms_of datalink setting) sequence }
{
    Data {
        datalink: Some(datalink.id),
        sequence: sequence.map(|number| (setting.id, number)),
        channel: Some(setting.id),
        expiration: None,
    }
}

// Writes the first packet that is not expired, from where it waits.
fn write_first(
    channel: Channel,
    store: &[u8],
    datalink: DatalinkSetting,
    sequence: Option<FlowSequence>,
    time: u64,
    out: &mut [u8],
) -> Result<ByteCount, Refusal>
    requires { Ready channel store.now }
    ensures { Outcome true (message_bytes (terms_of datalink channel.setting) sequence (first_bytes (alive time (packets_of channel.queue store.now)))) out.old result out.new }
{
    let packet = waiting::peek(channel.queue, store, time);
    writer::data::write(
        End::Ips,
        carrier(datalink, channel.setting, sequence),
        packet,
        out,
    )
}

// 15, then the three answers in their order, then 18 where there is a message to write.
pub fn next(
    channel: Channel,
    store: &mut [u8],
    datalink: DatalinkSetting,
    time: u64,
    out: &mut [u8],
) -> CallOutcome<NextAnswer>
    requires { Ready channel store.old }
    ensures serves { Serves datalink (rules.next time out.old) channel store.old (asked result.answer out.new) result.channel store.new }
    ensures moves { Moves datalink (rules.next time out.old) channel store.old result.moved }
{
    if time < channel.latest {
        return refused(channel, refusal::EARLIER_TIME);
    }
    let bytes = first_length(channel, store, time);
    if bytes.0 == 0 {
        return expired(channel, store, time, NextAnswer::NothingWaiting);
    }
    if !status::is_operational(datalink.codes, channel.status) {
        return expired(channel, store, time, NextAnswer::NotOperational);
    }
    if !flow::may_go(channel.flow, channel.sequence, bytes) {
        return expired(channel, store, time, NextAnswer::WindowShut);
    }
    let after = flow::counted(channel.flow, channel.sequence, bytes);
    let carried = flow::carried(channel.flow, after);
    let Ok(length) = write_first(channel, store, datalink, carried, time, out) else {
        return refused(channel, refusal::NO_ROOM);
    };
    sent(channel, store, after, time, length)
}
