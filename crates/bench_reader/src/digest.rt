// A reading folded into a number, part by part.
ghost use Rattle.std.specs.Prelude.{◌≡◌};
ghost use Rattle.note_control.specs.Codes.{code_status};
ghost use Rattle.bench_reader.specs.Digests.{end_of, mixed, datalink_part, instance_part, instance_length, context_part, context_length, status_part, sequence_part, window_part, counted_part, counted_channel, expiration_part, control_sum, noted_sum, data_sum, packet_sum, is_accepted, refusal_of, fault_of, plane_digest};

use meaning::message::{ContextBytes, Control, Data, End, Plane, Window};
use note_control::ABSENT_STATUS;
use quantity::count::{DatalinkId, FlowSequence, LinkInstanceId};
use quantity::limit::CHANNEL_IDS;
use quantity::refusal::Refusal;
use reader::answer::Verdict;

// 2^32 and the number behind it, that no value of 32 bits is.
pub const ABSENT: u64 = 4294967296;

const EMPTY: u64 = 4294967297;

// 2^17 and 2^47: a turn by 17 bits of 64.
const HIGH: u64 = 131072;

const LOW: u64 = 140737488355328;

// The end that a flag stands for.
pub fn end_of(radio: bool) -> End
    ensures { result ≡ end_of radio }
{
    if radio { End::Radio } else { End::Ips }
}

// One part more.
#[tactic(auto, unfolding(crate::specs::Digests::mixed))]
pub fn mix(sum: u64, part: u64) -> u64
    ensures { result ≡ mixed sum part }
{
    let turned = sum % LOW * HIGH + sum / LOW;
    turned.wrapping_add(part)
}

fn datalink(stated: Option<DatalinkId>) -> u64
    ensures { result ≡ datalink_part stated }
{
    stated.map_or(ABSENT, |id| id.0 as u64)
}

fn instance(stated: Option<(LinkInstanceId, usize)>) -> u64
    ensures { result ≡ instance_part stated }
{
    stated.map_or(0, |(id, _)| id.0)
}

fn instance_length(stated: Option<(LinkInstanceId, usize)>) -> u64
    ensures { result ≡ instance_length stated }
{
    stated.map_or(0, |(_, length)| length as u64)
}

fn context(stated: Option<(ContextBytes, usize)>) -> u64
    ensures { result ≡ context_part stated }
{
    stated.map_or(0, |(bytes, _)| bytes.0)
}

fn context_length(stated: Option<(ContextBytes, usize)>) -> u64
    ensures { result ≡ context_length stated }
{
    stated.map_or(0, |(_, length)| length as u64)
}

// A status or a channel.
fn byte(stated: Option<u8>) -> u64
    ensures { result ≡ status_part stated }
{
    stated.map_or(ABSENT, |number| number as u64)
}

fn sequence(stated: Option<FlowSequence>) -> u64
    ensures { result ≡ sequence_part stated }
{
    stated.map_or(ABSENT, |word| word.0 as u64)
}

pub fn window(stated: Option<Window>) -> u64
    ensures { result ≡ window_part stated }
{
    match stated {
        None => ABSENT,
        Some(Window::Empty) => EMPTY,
        Some(Window::Given(word)) => word.0 as u64,
    }
}

fn counted(stated: Option<(u8, FlowSequence)>) -> u64
    ensures { result ≡ counted_part stated }
{
    stated.map_or(ABSENT, |(_, word)| word.0 as u64)
}

fn counted_channel(stated: Option<(u8, FlowSequence)>) -> u64
    ensures { result ≡ counted_channel stated }
{
    stated.map_or(ABSENT, |(id, _)| id as u64)
}

fn expiration(stated: Option<u32>) -> u64
    ensures { result ≡ expiration_part stated }
{
    stated.map_or(ABSENT, |time| time as u64)
}

// What a control message states of the whole, and of one channel; of a channel that the tables don't have, nothing.
pub fn control_sum(message: Control, channel: u8) -> u64
    ensures { result ≡ control_sum channel message }
{
    let named = message.datalink;
    let link = message.instance;
    let told = message.context;
    let begun = mix(mix(0, datalink(named)), instance(link));
    let whole = mix(
        mix(mix(begun, instance_length(link)), context(told)),
        context_length(told),
    );
    let i = channel as usize;
    if CHANNEL_IDS <= i {
        return mix(mix(mix(whole, ABSENT), ABSENT), ABSENT);
    }
    let status_cell = message.statuses[i];
    let reported = status_cell;
    let sequence_cell = message.sequences[i];
    let flow = sequence_cell;
    let window_cell = message.windows[i];
    let edge = window_cell;
    mix(
        mix(mix(whole, byte(reported)), sequence(flow)),
        window(edge),
    )
}

// What is noted of a Channel Status.
pub fn status_code(code: u16) -> u64
    ensures { result ≡ status_part (code_status code) }
{
    if code == ABSENT_STATUS {
        return ABSENT;
    }
    code as u64 - 1
}

// What is noted of a control message, its link, and of one channel its status and its window.
#[tactic(auto, unfolding(crate::specs::Digests::noted_sum))]
pub fn noted_sum(
    link: Option<(LinkInstanceId, usize)>,
    told: Option<(ContextBytes, usize)>,
    reported: u64,
    edge: u64,
) -> u64
    ensures { result ≡ noted_sum link told reported edge }
{
    let named = mix(mix(0, instance(link)), instance_length(link));
    let whole = mix(mix(named, context(told)), context_length(told));
    mix(mix(whole, reported), edge)
}

// What a data message states, as one number.
#[tactic(auto, unfolding(crate::specs::Digests::data_sum))]
pub fn data_sum(message: Data) -> u64
    ensures { result ≡ data_sum message }
{
    let named = message.datalink;
    let flow = message.sequence;
    let chosen = message.channel;
    let time = message.expiration;
    let counting = mix(
        mix(mix(0, datalink(named)), counted(flow)),
        counted_channel(flow),
    );
    mix(mix(counting, byte(chosen)), expiration(time))
}

// The packet's length and its last byte, where it has one.
#[tactic(auto, unfolding(crate::specs::Digests::packet_sum))]
pub fn packet_sum(sum: u64, packet: &[u8]) -> u64
    ensures { result ≡ packet_sum sum packet.now }
{
    let n = packet.len();
    if n == 0 {
        return mix(mix(sum, 0), 0);
    }
    mix(mix(sum, n as u64), packet[n - 1] as u64)
}

// Whether a reader accepted the message.
pub fn is_accepted(verdict: Verdict) -> bool
    ensures { result ≡ is_accepted verdict }
{
    matches!(verdict, Verdict::Accepted)
}

// A refusal's number and place: the place needs the lower 17 bits.
pub fn refused(refusal: Refusal) -> u64
    ensures { result ≡ refusal_of refusal }
{
    mix(refusal.number as u64, refusal.place as u64)
}

// Of a message that isn't accepted: its refusal, or 1.
pub fn fault(verdict: Verdict) -> u64
    ensures { result ≡ fault_of verdict }
{
    match verdict {
        Verdict::Accepted => 0,
        Verdict::OtherPlane => 1,
        Verdict::Refused(refusal) => refused(refusal),
    }
}

// The answer about the plane, as one number.
pub fn plane(answer: Result<Plane, Refusal>) -> u64
    ensures { result ≡ plane_digest answer }
{
    match answer {
        Ok(Plane::Control) => 0,
        Ok(Plane::Data) => 1,
        Err(refusal) => refused(refusal),
    }
}
