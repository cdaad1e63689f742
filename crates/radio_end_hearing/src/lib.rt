// A datagram of the IPS end, heard by the radio's: a control message is answered; a data message is heard and its packet queued. 19, then 1 to 11 as for reading,
// then 12, then 18; a refusal leaves every word and the output as they were.
#![tactic(auto)]

ghost use Rattle.std.specs.Prelude.{◌≡◌, ◌<◌, true};
ghost use Rattle.quantity.specs.Limits.{RESERVED-CHANNEL};
ghost use Rattle.radio_end_state.specs.Limits.{state_fits};
ghost use Rattle.radio_end_state.specs.Calls.{names_own, lacks_none, channel_named, sequence_counted, hearing_all, control_heard, data_heard, control_read, data_read, heard};
ghost use Rattle.radio_end_words.specs.Words.{state_in, state_words};
ghost use Rattle.radio_end_telling.specs.Left.{Left};

use meaning::message;
use meaning::message::{Control, Data, End, Plane};
use quantity::count::{ByteCount, FlowSequence};
use quantity::limit::RESERVED_CHANNEL;
use quantity::refusal;
use quantity::refusal::Refusal;
use radio_end_state::answer::Answer;
use radio_end_state::channel;
use radio_end_survey::survey;
use radio_end_telling::{locate, settle};
use radio_end_words::layout::{HEAD, SLOT};
use radio_end_words::{head, place, slot};
use reader::answer::{ControlReading, DataReading, Verdict};
use reader::header;

// Whether what a message states of a Channel ID names a channel that is configured, or it states nothing.
fn names_own(words: &[u64], message: &Control, id: u8) -> bool
    requires fits { state_fits (state_in words.now) ≡ true }
    requires below { id < RESERVED-CHANNEL }
    ensures { result ≡ names_own (state_in words.now) message.now id }
{
    match message.sequences[id as usize] {
        None => true,
        Some(_) => place::find(words, id) < place::count(words),
    }
}

// Whether every channel that a control message names is configured.
fn lacks_none(words: &[u64], message: &Control) -> bool
    requires { state_fits (state_in words.now) ≡ true }
    ensures { result ≡ lacks_none (state_in words.now) message.now }
{
    (0..RESERVED_CHANNEL).all(|id| names_own(words, message, id))
}

// Every channel hears what is stated of its Channel ID.
fn save_heard(words: &mut [u64], message: Control)
    requires { state_fits (state_in words.old) ≡ true }
    ensures { words.new ≡ state_words (hearing_all (state_in words.old) message) }
{
    let count = place::count(words);
    for index in 0..count {
        let from = HEAD + SLOT * index;
        let to = from + SLOT;
        let before = slot::load(&words[from..to]);
        let stated = message.sequences[before.setting.id as usize];
        let heard = channel::hear(before, stated);
        slot::save(&mut words[from..to], heard);
    }
}

// A control message is always answered, with windows as they are after hearing.
fn control_accepted(words: &mut [u64], message: Control, out: &mut [u8]) -> Result<Answer, Refusal>
    requires { state_fits (state_in words.old) ≡ true }
    ensures { Left (control_heard (state_in words.old) message out.old) words.old result words.new out.new }
{
    if !lacks_none(words, &message) {
        return settle::refused(refusal::NO_CHANNEL);
    }
    let context = head::context(words);
    let sequences = message.sequences;
    let count = place::count(words);
    let nothing = settle::no_channel();
    let size = radio_end_message::message::write(words, context, count, nothing, sequences, out)?;
    save_heard(words, message);
    Ok(Answer::Answered(size))
}

fn control(words: &mut [u64], reading: ControlReading, out: &mut [u8]) -> Result<Answer, Refusal>
    requires { state_fits (state_in words.old) ≡ true }
    ensures { Left (control_read (state_in words.old) reading out.old) words.old result words.new out.new }
{
    let verdict = reading.verdict;
    match verdict {
        Verdict::Accepted => {
            let message = reading.message;
            control_accepted(words, message, out)
        }
        // The plane is known before a reader is asked.
        Verdict::OtherPlane => Ok(Answer::Quiet),
        Verdict::Refused(refusal) => Err(refusal),
    }
}

fn named(channel: Option<u8>) -> u8
    ensures { result ≡ channel_named channel }
{
    channel.unwrap_or(0)
}

fn counted(sequence: Option<(u8, FlowSequence)>) -> Option<FlowSequence>
    ensures { result ≡ sequence_counted sequence }
{
    sequence.map(|(_, number)| number)
}

// Its Flow Sequence is heard, and its packet queued.
fn data_accepted(
    words: &mut [u64],
    message: Data,
    bytes: ByteCount,
    out: &mut [u8],
) -> Result<Answer, Refusal>
    requires { state_fits (state_in words.old) ≡ true }
    ensures { Left (data_heard (state_in words.old) message bytes out.old) words.old result words.new out.new }
{
    let channel = message.channel;
    let sequence = message.sequence;
    let index = locate::find(words, named(channel))?;
    let before = place::load(words, index);
    let heard = channel::hear(before, counted(sequence));
    settle::channel(words, index, channel::queue(heard, bytes), out)
}

fn data(
    words: &mut [u64],
    reading: DataReading,
    bytes: ByteCount,
    out: &mut [u8],
) -> Result<Answer, Refusal>
    requires { state_fits (state_in words.old) ≡ true }
    ensures { Left (data_read (state_in words.old) reading bytes out.old) words.old result words.new out.new }
{
    let verdict = reading.verdict;
    match verdict {
        Verdict::Accepted => {
            let message = reading.message;
            data_accepted(words, message, bytes, out)
        }
        Verdict::OtherPlane => Ok(Answer::Quiet),
        Verdict::Refused(refusal) => Err(refusal),
    }
}

// 19, then 1 to 11 as for reading, then 12, then 18.
pub fn hear(words: &mut [u64], datagram: &[u8], out: &mut [u8]) -> Result<Answer, Refusal>
    ensures { Left (heard (state_in words.old) datagram.now out.old) words.old result words.new out.new }
{
    if !survey::fits(words) {
        return settle::refused(refusal::OUTSIDE_LIMITS);
    }
    let datalink = head::datalink(words);
    let plane = header::plane(datagram)?;
    match plane {
        Plane::Control => control(
            words,
            reader::control::read(datagram, End::Ips, datalink),
            out,
        ),
        Plane::Data => {
            let carried = reader::data::read_with_packet(datagram, End::Ips, datalink);
            let reading = carried.reading;
            let bytes = datagram.len() - carried.start;
            data(words, reading, ByteCount(bytes), out)
        }
    }
}
