// A data message, of either end, option by option; and the packet that it carries.
#![tactic(auto)]

ghost use Rattle.std.specs.Prelude.{◌≡◌, drop};
ghost use Rattle.wire.specs.Options.{split};
ghost use Rattle.meaning.specs.declared.message.End.{End};
ghost use Rattle.read_rules.specs.Judging.{judge};
ghost use Rattle.read_rules.specs.Sorts.{finish_of, rules_of};
ghost use Rattle.read_data.specs.Message.{pairs, blank_data, data_refused, data_other, data_sort};
ghost use Rattle.read_data.specs.Packet.{start_with, uncarried_of, carried_reading, Carries};

use meaning::message::{Data, End};
use quantity::count::{DatalinkId, FlowSequence};
use quantity::refusal::{BEHIND_PACKET, CUT, MISSING, OTHER_DATALINK, REPEATED, Refusal, UNPAIRED};
use read_option::answer::Item;
use read_option::option;
use read_rules::answer::Verdict;
use wire::option::{FRAME_SIZE, first};

pub mod packet;

// The meaning is that of a message that states nothing unless it is accepted.
#[derive(Clone, Copy)]
pub struct DataReading {
    pub verdict: Verdict,
    pub message: Data,
}

// A reading, and where the carried packet begins: it ends with the datagram. Nothing is carried unless the message is accepted.
#[derive(Clone, Copy)]
pub struct CarriedReading {
    pub reading: DataReading,
    pub start: usize,
}

// A message that states nothing.
pub fn blank() -> Data
    ensures { result ≡ blank_data }
{
    Data {
        datalink: None,
        sequence: None,
        channel: None,
        expiration: None,
    }
}

// A refused message states nothing.
pub fn refused(number: u8, place: usize) -> DataReading
    ensures { result ≡ data_refused number place }
{
    DataReading {
        verdict: Verdict::Refused(Refusal {
            number: number,
            place: place,
        }),
        message: blank(),
    }
}

// Number 10: a Flow Sequence needs a Channel Identifier of the same channel.
fn is_paired(sequence: Option<(u8, FlowSequence)>, channel: Option<u8>) -> bool
    ensures { result ≡ pairs sequence channel }
{
    let Some((counted, _)) = sequence else {
        return true;
    };
    let Some(named) = channel else {
        return false;
    };
    counted == named
}

// The tests on the whole, 9, 10, 11: for either end the same.
fn finished(n: usize, message: Data, packet: bool, id: DatalinkId) -> DataReading
    ensures { (end : End) → result ≡ finish_of (data_sort end id) n (record { message = message; packet = packet }) }
{
    let datalink = message.datalink;
    let Some(named) = datalink else {
        return refused(MISSING, n);
    };
    if !packet {
        return refused(MISSING, n);
    }
    let sequence = message.sequence;
    let channel = message.channel;
    if !is_paired(sequence, channel) {
        return refused(UNPAIRED, n);
    }
    if named.0 != id.0 {
        return refused(OTHER_DATALINK, n);
    }
    DataReading {
        verdict: Verdict::Accepted,
        message: message,
    }
}

// A message of n bytes that is refused carries nothing.
pub fn uncarried(number: u8, place: usize, n: usize) -> CarriedReading
    ensures { result ≡ uncarried_of (data_refused number place) n }
{
    CarriedReading {
        reading: refused(number, place),
        start: n,
    }
}

// A message of n bytes that is of the other plane carries nothing.
pub fn other_plane(n: usize) -> CarriedReading
    ensures { result ≡ uncarried_of data_other n }
{
    let reading = DataReading {
        verdict: Verdict::OtherPlane,
        message: blank(),
    };
    CarriedReading { reading, start: n }
}

// The place at which the packet was found, if the message of n bytes is accepted.
fn carried_at(reading: DataReading, start: usize, n: usize) -> CarriedReading
    ensures { result ≡ record { reading = reading; start = start_with reading.verdict start n } }
{
    let verdict = reading.verdict;
    match verdict {
        Verdict::Accepted => CarriedReading { reading, start },
        Verdict::OtherPlane => CarriedReading { reading, start: n },
        Verdict::Refused(_) => CarriedReading { reading, start: n },
    }
}

// The options one after another, each tested in the order 3, 8, 6, 4, 5, 7; and where the packet stands that the last one holds.
pub fn with_packet(datagram: &[u8], end: End, id: DatalinkId) -> CarriedReading
    ensures value { result ≡ carried_reading (judge (rules_of (data_sort end id)) (split (drop 1 datagram.now)) 1 (data_sort end id).blank) datagram.now }
    ensures packet { Carries result datagram.now }
{
    let n = datagram.len();
    let mut datalink = None;
    let mut sequence = None;
    let mut channel = None;
    let mut expiration = None;
    let mut packet = false;
    let mut start: usize = 0;
    let mut at: usize = 1;
    // Each option says where the next begins: no `for` or iterator goes by such steps.
    while at < n {
        let Some((kind, size)) = first(&datagram[at..]) else {
            return uncarried(CUT, at, n);
        };
        if packet {
            return uncarried(BEHIND_PACKET, at, n);
        }
        let from = at + FRAME_SIZE;
        let to = from + size;
        let answer = option::of_data(end, kind, &datagram[from..to]);
        let Ok(item) = answer else {
            return uncarried(option::number_of(answer), at, n);
        };
        match item {
            Item::Datalink(named) => {
                let None = datalink else {
                    return uncarried(REPEATED, at, n);
                };
                datalink = Some(named);
            }
            Item::Sequence(counted, value) => {
                let None = sequence else {
                    return uncarried(REPEATED, at, n);
                };
                sequence = Some((counted, value));
            }
            Item::Channel(named) => {
                let None = channel else {
                    return uncarried(REPEATED, at, n);
                };
                channel = Some(named);
            }
            Item::Expiration(time) => {
                let None = expiration else {
                    return uncarried(REPEATED, at, n);
                };
                expiration = Some(time);
            }
            Item::Packet => {
                packet = true;
                start = from;
            }
            // An unknown option; what only a control message states, number 6 has refused.
            _ => {}
        }
        at = to;
    }
    // `at` is the datagram's length now.
    let message = Data {
        datalink: datalink,
        sequence: sequence,
        channel: channel,
        expiration: expiration,
    };
    carried_at(finished(at, message, packet, id), start, n)
}

// The same without the packet, by a walk of its own: a module that wants both has each moved to where it is called (docs/SPEED.md).
pub fn options(datagram: &[u8], end: End, id: DatalinkId) -> DataReading
    ensures { result ≡ judge (rules_of (data_sort end id)) (split (drop 1 datagram.now)) 1 (data_sort end id).blank }
{
    let n = datagram.len();
    let mut datalink = None;
    let mut sequence = None;
    let mut channel = None;
    let mut expiration = None;
    let mut packet = false;
    let mut at: usize = 1;
    // Each option says where the next begins: no `for` or iterator goes by such steps.
    while at < n {
        let Some((kind, size)) = first(&datagram[at..]) else {
            return refused(CUT, at);
        };
        if packet {
            return refused(BEHIND_PACKET, at);
        }
        let from = at + FRAME_SIZE;
        let to = from + size;
        let answer = option::of_data_alone(end, kind, &datagram[from..to]);
        let Ok(item) = answer else {
            return refused(option::number_of(answer), at);
        };
        match item {
            Item::Datalink(named) => {
                let None = datalink else {
                    return refused(REPEATED, at);
                };
                datalink = Some(named);
            }
            Item::Sequence(counted, value) => {
                let None = sequence else {
                    return refused(REPEATED, at);
                };
                sequence = Some((counted, value));
            }
            Item::Channel(named) => {
                let None = channel else {
                    return refused(REPEATED, at);
                };
                channel = Some(named);
            }
            Item::Expiration(time) => {
                let None = expiration else {
                    return refused(REPEATED, at);
                };
                expiration = Some(time);
            }
            Item::Packet => {
                packet = true;
            }
            // An unknown option; what only a control message states, number 6 has refused.
            _ => {}
        }
        at = to;
    }
    // `at` is the datagram's length now.
    let message = Data {
        datalink: datalink,
        sequence: sequence,
        channel: channel,
        expiration: expiration,
    };
    finished(at, message, packet, id)
}
