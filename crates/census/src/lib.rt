// What is counted of a capture's records, in a lent slice of numbers.
#![tactic(auto)]

ghost use Rattle.std.specs.Prelude.{◌≡◌, ◌+◌};
ghost use Rattle.ethernet.specs.Layers.{datagram_of};
ghost use Rattle.reader.specs.Readings.{read_control, read_data, packet_of};
ghost use Rattle.census.specs.Adding.{add_at, add_all};
ghost use Rattle.census.specs.Outcomes.{control_of, data_of, reading_of, sender_of, outcome_of};
ghost use Rattle.census.specs.Places.{REFUSALS, end_place, window_adds, windows_from, granted_adds, packet_adds, reading_adds, message_adds, adds_of};

use ethernet::{Kind, Ports};
use meaning::message::{End, Plane, Window};
use quantity::count::DatalinkId;
use quantity::limit::CHANNEL_IDS;
use reader::answer::Verdict;
use reader::{control, data, header};

// Where each count stands.
pub const RECORDS: usize = 0;

pub const SKIPPED: usize = 1;

pub const IPS: usize = 2;

pub const RADIO: usize = 3;

// Refusal n stands at REFUSALS + n.
pub const REFUSALS: usize = 3;

// A channel's packets, bytes and windows stand three times its Channel ID behind these.
pub const PACKETS: usize = 15;

pub const BYTES: usize = 16;

const WINDOWS: usize = 17;

// All counts.
pub const PLACES: usize = 780;

// An amount more at a place, if there is such a place. A count at the most that a word holds stays there.
fn add(counts: &mut [u64], place: usize, amount: u64)
    ensures { counts.new ≡ add_at counts.old place amount }
{
    if place < counts.len() {
        counts[place] = counts[place].saturating_add(amount);
    }
}

// Where the datagrams of an end are counted.
fn end_place(end: End) -> usize
    ensures { result ≡ end_place end }
{
    match end {
        End::Ips => IPS,
        End::Radio => RADIO,
    }
}

// A Flow Window of a channel: only one with the field grants a window.
#[tactic(auto, unfolding(crate::specs::Adding::add_all))]
fn count_window(counts: &mut [u64], channel: u8, window: Option<Window>)
    ensures { counts.new ≡ add_all (window_adds channel window) counts.old }
{
    if let Some(Window::Given(_)) = window {
        add(counts, WINDOWS + 3 * (channel as usize), 1);
    }
}

// The Flow Windows of a control message.
#[tactic(auto, using(crate::proofs::Turns::left_on, crate::proofs::Turns::left_end))]
fn count_windows(counts: &mut [u64], cells: [Option<Window>; CHANNEL_IDS])
    ensures { counts.new ≡ add_all (windows_from 0 cells) counts.old }
{
    for (channel, cell) in cells.iter().enumerate() {
        count_window(counts, channel as u8, *cell);
    }
}

// A datagram that was refused by a number.
fn count_refusal(counts: &mut [u64], number: u8)
    ensures { counts.new ≡ add_at counts.old (REFUSALS + number) 1 }
{
    add(counts, REFUSALS + number as usize, 1);
}

// The windows that an accepted control message grants: the radio's does.
#[tactic(auto, unfolding(crate::specs::Adding::add_all))]
fn count_granted(counts: &mut [u64], end: End, cells: [Option<Window>; CHANNEL_IDS])
    ensures { counts.new ≡ add_all (granted_adds end cells) counts.old }
{
    match end {
        End::Ips => {}
        End::Radio => count_windows(counts, cells),
    }
}

#[tactic(auto, unfolding(crate::specs::Adding::add_all))]
fn count_control(counts: &mut [u64], datagram: &[u8], end: End, id: DatalinkId)
    ensures { counts.new ≡ add_all (reading_adds end (control_of (read_control end id datagram.now))) counts.old }
{
    let reading = control::read(datagram, end, id);
    match reading.verdict {
        Verdict::Accepted => count_granted(counts, end, reading.message.windows),
        Verdict::Refused(refusal) => count_refusal(counts, refusal.number),
        Verdict::OtherPlane => {}
    }
}

// A packet of n bytes on a channel.
#[tactic(auto, unfolding(crate::specs::Adding::add_all))]
fn count_packet(counts: &mut [u64], channel: u8, size: u64)
    ensures { counts.new ≡ add_all (packet_adds channel size) counts.old }
{
    let first = 3 * (channel as usize);
    add(counts, PACKETS + first, 1);
    add(counts, BYTES + first, size);
}

#[tactic(auto, using(reader::proofs::Carried::carried_reading_lem, reader::proofs::Carried::carried_size, reader::proofs::Carried::carried_within), unfolding(crate::specs::Adding::add_all))]
fn count_data(counts: &mut [u64], datagram: &[u8], end: End, id: DatalinkId)
    ensures { counts.new ≡ add_all (reading_adds end (data_of (read_data end id datagram.now) (packet_of datagram.now))) counts.old }
{
    let carried = data::read_with_packet(datagram, end, id);
    match carried.reading.verdict {
        Verdict::Accepted => {
            // None stated is channel 0.
            let channel = carried.reading.message.channel.unwrap_or(0);
            let size = datagram.len() - carried.start;
            count_packet(counts, channel, size as u64);
        }
        Verdict::Refused(refusal) => count_refusal(counts, refusal.number),
        Verdict::OtherPlane => {}
    }
}

// A datagram of an end, read as CIRI.
#[tactic(auto, unfolding(crate::specs::Adding::add_all, crate::specs::Outcomes::reading_of))]
fn count_datagram(counts: &mut [u64], datagram: &[u8], end: End, id: DatalinkId)
    ensures { counts.new ≡ add_all (reading_adds end (reading_of end id datagram.now)) counts.old }
{
    match header::plane(datagram) {
        Ok(Plane::Control) => count_control(counts, datagram, end, id),
        Ok(Plane::Data) => count_data(counts, datagram, end, id),
        Err(refusal) => count_refusal(counts, refusal.number),
    }
}

// A message of an end, and what it is read as.
#[tactic(auto, unfolding(crate::specs::Adding::add_all))]
fn count_message(counts: &mut [u64], frame: &[u8], end: End, id: DatalinkId)
    ensures { counts.new ≡ add_all (message_adds end (reading_of end id (datagram_of frame.now))) counts.old }
{
    add(counts, end_place(end), 1);
    count_datagram(counts, ethernet::datagram(frame), end, id);
}

// Whose message a record of a kind holds.
fn sender_of(kind: Kind) -> Option<End>
    ensures { result ≡ sender_of kind }
{
    match kind {
        Kind::Ips => Some(End::Ips),
        Kind::Radio => Some(End::Radio),
        Kind::Shortened
        | Kind::Short
        | Kind::OtherType
        | Kind::NotIpv4
        | Kind::Fragment
        | Kind::OtherProtocol
        | Kind::Ipv4Length
        | Kind::UdpLength
        | Kind::OtherPort => None,
    }
}

// A record: how many bytes there were, those that were kept, the ports of the two ends, and the configured Datalink ID.
#[tactic(auto, unfolding(crate::specs::Adding::add_all, crate::specs::Outcomes::outcome_of))]
pub fn count(counts: &mut [u64], frame: &[u8], original: usize, ports: Ports, id: DatalinkId)
    ensures { counts.new ≡ add_all (adds_of (outcome_of ports id original frame.now)) counts.old }
{
    add(counts, RECORDS, 1);
    match sender_of(ethernet::kind_of(frame, original, ports)) {
        None => add(counts, SKIPPED, 1),
        Some(end) => count_message(counts, frame, end, id),
    }
}
