// Document 02, "A report over captures": counts what a capture holds of CIRI, and prints every count.
#![tactic(auto)]

ghost use Rattle.std.specs.Prelude.{◌≡◌};
ghost use Rattle.report.specs.Serving.{TurnedTo, Served};

use census::{BYTES, IPS, PACKETS, PLACES, RADIO, RECORDS, REFUSALS, SKIPPED};
use ethernet::Ports;
use quantity::count::DatalinkId;
use quantity::refusal::FILE_HEAD;
use records::{Came, Input};
use std::io::Read;

// How many bytes of the capture are held at once.
const ROOM: usize = 2 * records::ROOM;

// The longest line has 42 bytes.
const LINE: usize = 64;

// Lays what stands before a channel's count.
fn put_channel(out: &mut [u8], place: usize) -> usize {
    if place < PACKETS {
        return 0;
    }
    let at = text::put(out, 0, b"channel ");
    let end = text::put_number(out, at, ((place - PACKETS) / 3) as u64);
    if place % 3 == PACKETS % 3 {
        return text::put(out, end, b" packets ");
    }
    if place % 3 == BYTES % 3 {
        return text::put(out, end, b" bytes ");
    }
    text::put(out, end, b" windows ")
}

// Lays a count's name and the space behind it.
fn put_name(out: &mut [u8], place: usize) -> usize {
    if place == RECORDS {
        return text::put(out, 0, b"records ");
    }
    if place == SKIPPED {
        return text::put(out, 0, b"skipped ");
    }
    if place == IPS {
        return text::put(out, 0, b"ips ");
    }
    if place == RADIO {
        return text::put(out, 0, b"radio ");
    }
    if place < PACKETS {
        let at = text::put(out, 0, b"refusal ");
        let end = text::put_number(out, at, (place - REFUSALS) as u64);
        return text::put(out, end, b" ");
    }
    put_channel(out, place)
}

// Says something on standard error, where nothing is left to say of what can't be written there.
// Each program has its own `complain` and `print`: `Print` promises nothing of what it writes, and a public function promises its whole outcome.
fn complain(complaints: &impl Print, text: &[u8]) {
    let _said = complaints.write_all(text).is_ok();
}

// Prints the first bytes of a stretch. Whether they were written; if not, that is said on standard error.
fn print(printer: &impl Print, complaints: &impl Print, out: &[u8], count: usize) -> bool {
    if count <= out.len() {
        if printer.write_all(&out[0..count]).is_ok() {
            return true;
        }
    }
    complain(complaints, &lines::UNWRITTEN);
    false
}

// Prints a number behind what was laid before it. Whether it was written, as the three below say of theirs.
fn say_number(
    printer: &impl Print,
    complaints: &impl Print,
    out: &mut [u8],
    at: usize,
    value: u64,
) -> bool {
    let end = text::put_number(out, at, value);
    let behind = text::put(out, end, b"\n");
    print(printer, complaints, out, behind)
}

fn say_count(
    printer: &impl Print,
    complaints: &impl Print,
    out: &mut [u8],
    place: usize,
    value: u64,
) -> bool {
    let at = put_name(out, place);
    say_number(printer, complaints, out, at, value)
}

fn say_counts(
    printer: &impl Print,
    complaints: &impl Print,
    out: &mut [u8],
    counts: &[u64],
) -> bool {
    for (place, count) in counts.iter().enumerate() {
        if !say_count(printer, complaints, out, place, *count) {
            return false;
        }
    }
    true
}

// The last line, where the capture is refused by a number; 0 is none.
fn say_refusal(printer: &impl Print, complaints: &impl Print, out: &mut [u8], number: u8) -> bool {
    if number == 0 {
        return true;
    }
    let at = text::put(out, 0, b"refused ");
    say_number(printer, complaints, out, at, number as u64)
}

// One turn: the next record is counted. Not one with `judge`'s turn: over a closure its outcome would be a relation of calls, here it is one equation.
#[tactic(auto, using(records::proofs::Pieces::came_inside))]
fn turn<R: Read>(
    reader: &mut R,
    buffer: &mut [u8],
    counts: &mut [u64],
    input: Input,
    ports: Ports,
    id: DatalinkId,
) -> Came
    ensures { TurnedTo ports id buffer.old input counts.old result buffer.new counts.new }
{
    let came = records::read_record(reader, buffer, input);
    match came {
        Came::End => came,
        Came::Record {
            from,
            to,
            original,
            ..
        } => {
            census::count(counts, &buffer[from..to], original, ports, id);
            came
        }
        Came::Refused(_) => came,
    }
}

// Turn after turn. Gives the number by which the capture is refused, or 0. Nothing says that a capture ends, so the turns
// are counted.
fn serve<R: Read>(
    reader: &mut R,
    buffer: &mut [u8],
    counts: &mut [u64],
    ports: Ports,
    id: DatalinkId,
) -> u8
    ensures { Served ports id buffer.old counts.old result counts.new }
{
    let mut input = records::start();
    for _number in 0..u64::MAX {
        match turn(reader, buffer, counts, input, ports, id) {
            Came::End => return 0,
            Came::Record { rest, .. } => input = rest,
            Came::Refused(refusal) => return refusal,
        }
    }
    0
}

// "at 25 only the header, at 26 the report so far is printed, with a last line that says so"
fn report(
    reader: &mut impl Read,
    printer: &impl Print,
    complaints: &impl Print,
    buffer: &mut [u8],
    counts: &mut [u64],
    out: &mut [u8],
    ports: Ports,
    id: DatalinkId,
) {
    let number = serve(reader, buffer, counts, ports, id);
    if number == FILE_HEAD {
        say_refusal(printer, complaints, out, number);
        return;
    }
    if say_counts(printer, complaints, out, counts) {
        say_refusal(printer, complaints, out, number);
    }
}

fn main(rt: HostRuntime) {
    let mut reader = rt.stdin();
    let printer = rt.stdout();
    let complaints = rt.stderr();
    let setting = capture_words::asked(&rt);
    if !setting.good {
        complain(&complaints, &capture_words::USAGE);
        return;
    }
    let header = b"count value\n";
    if !print(&printer, &complaints, header, header.len()) {
        return;
    }
    let ports = setting.ports;
    let id = setting.id;
    let mut buffer = [0u8; ROOM];
    let mut counts = [0u64; PLACES];
    let mut out = [0u8; LINE];
    report(
        &mut reader,
        &printer,
        &complaints,
        &mut buffer,
        &mut counts,
        &mut out,
        ports,
        id,
    );
}
