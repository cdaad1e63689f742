// What one datagram is read as, folded into a number: exports to measure the readers from Rust or C (bench/). The control reader is asked as a caller
// asks it, by the plane first: what the header refuses fills no message.
#![tactic(auto)]

ghost use Rattle.std.specs.Prelude.{◌≡◌, if◌then◌else◌, Ok};
ghost use Rattle.reader.specs.Readings.{plane_of, read_control, read_data, packet_of};
ghost use Rattle.bench_reader.specs.Digests.{end_of, plane_digest, control_digest, noted_digest, data_digest, packet_digest};

use meaning::message::{End, Plane};
use note_control::{codes, note};
use quantity::count::DatalinkId;
use quantity::limit::CHANNEL_IDS;
use reader::answer::Verdict;
use reader::{control, data, header};

pub mod digest;

// The header alone, by which a caller chooses the reader.
#[unsafe(no_mangle)]
pub extern "C" fn nespovarda_plane_digest(datagram: &[u8]) -> u64
    ensures { result ≡ plane_digest (plane_of datagram.now) }
{
    digest::plane(header::plane(datagram))
}

// A control message: what it states of the whole and of one channel.
#[unsafe(no_mangle)]
pub extern "C" fn nespovarda_control_digest(
    datagram: &[u8],
    radio: bool,
    id: u8,
    channel: u8,
) -> u64
    ensures { result ≡ control_digest channel (read_control (end_of radio) (record { 0 = id }) datagram.now) }
{
    if let Err(refusal) = header::plane(datagram) {
        return digest::refused(refusal);
    }
    let reading = control::read(datagram, digest::end_of(radio), DatalinkId(id));
    let verdict = reading.verdict;
    if !digest::is_accepted(verdict) {
        return digest::fault(verdict);
    }
    let message = reading.message;
    digest::control_sum(message, channel)
}

// What is noted of a datagram of the control plane.
fn noted(datagram: &[u8], end: End, id: DatalinkId, channel: u8) -> u64
    requires { plane_of datagram.now ≡ Ok Plane.Control }
    ensures { result ≡ noted_digest channel (read_control end id datagram.now) }
{
    let mut statuses = [0u16; CHANNEL_IDS];
    let mut tags = [0u8; CHANNEL_IDS];
    let mut windows = [0u32; CHANNEL_IDS];
    let noted = note(datagram, end, id, &mut statuses, &mut tags, &mut windows);
    let verdict = noted.verdict;
    if !digest::is_accepted(verdict) {
        return digest::fault(verdict);
    }
    let link = noted.instance;
    let told = noted.context;
    let i = channel as usize;
    if CHANNEL_IDS <= i {
        return digest::noted_sum(link, told, digest::ABSENT, digest::ABSENT);
    }
    let reported = digest::status_code(statuses[i]);
    let edge = digest::window(codes::window(tags[i], windows[i]));
    digest::noted_sum(link, told, reported, edge)
}

// A control message by its lent tables: what is noted of the whole and of one channel.
#[unsafe(no_mangle)]
pub extern "C" fn nespovarda_noted_digest(datagram: &[u8], radio: bool, id: u8, channel: u8) -> u64
    ensures { result ≡ noted_digest channel (read_control (end_of radio) (record { 0 = id }) datagram.now) }
{
    match header::plane(datagram) {
        Ok(Plane::Control) => noted(datagram, digest::end_of(radio), DatalinkId(id), channel),
        Ok(Plane::Data) => digest::fault(Verdict::OtherPlane),
        Err(refusal) => digest::refused(refusal),
    }
}

// A data message by one walk, the packet handed back with it or not. No other function here reads one: the compiler then moves the reader
// into this place, and nothing that it answers is handed over in memory (docs/SPEED.md).
#[unsafe(no_mangle)]
pub extern "C" fn nespovarda_data_digest(datagram: &[u8], radio: bool, id: u8, handed: bool) -> u64
    ensures { result ≡ (if handed then packet_digest (read_data (end_of radio) (record { 0 = id }) datagram.now) (packet_of datagram.now) else data_digest (read_data (end_of radio) (record { 0 = id }) datagram.now)) }
{
    let carried = data::read_with_packet(datagram, digest::end_of(radio), DatalinkId(id));
    let reading = carried.reading;
    let verdict = reading.verdict;
    if !digest::is_accepted(verdict) {
        return digest::fault(verdict);
    }
    let message = reading.message;
    let sum = digest::data_sum(message);
    if !handed {
        return sum;
    }
    let start = carried.start;
    digest::packet_sum(sum, &datagram[start..])
}
