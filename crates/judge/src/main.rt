// Document 02, "Judging another maker's session": says of each channel of a capture whether its data messages obey.
#![tactic(auto)]

ghost use Rattle.std.specs.Prelude.{◌≡◌, length};
ghost use Rattle.judge.specs.Serving.{TurnedTo, Served, Judged};

use conduct::{Finding, Tally, WORDS};
use ethernet::Ports;
use quantity::count::DatalinkId;
use quantity::limit::CHANNEL_IDS;
use records::{Came, Input};
use std::io::Read;

// How many bytes of the capture are held at once.
const ROOM: usize = 2 * records::ROOM;

// The longest line has 57 bytes.
const LINE: usize = 64;

// Lays a verdict and the end of its line.
fn put_finding(out: &mut [u8], at: usize, finding: Finding) -> usize {
    match finding {
        Finding::Passes => text::put(out, at, b" passes\n"),
        Finding::Undecided => text::put(out, at, b" undecided\n"),
        Finding::Breach(number) => {
            let end = text::put(out, at, b" breach ");
            let behind = text::put_number(out, end, number);
            text::put(out, behind, b"\n")
        }
    }
}

// Says something on standard error, where nothing is left to say of what can't be written there.
// Each program has its own `complain` and `print`: `Print` promises nothing of what it writes, and a public function promises its whole outcome.
fn complain(complaints: &impl Print, text: &[u8]) {
    let _said = complaints.write_all(text).is_ok();
}

// Prints the first bytes of a stretch. Whether they were written; if not, that is said on standard error.
fn print(printer: &impl Print, complaints: &impl Print, out: &[u8], count: usize) -> bool {
    if count <= out.len() {
        if printer.write_all(&out[0..count]).is_ok() {
            return true;
        }
    }
    complain(complaints, &lines::UNWRITTEN);
    false
}

fn say_finding(
    printer: &impl Print,
    complaints: &impl Print,
    out: &mut [u8],
    channel: u8,
    finding: Finding,
) -> bool {
    let at = text::put_number(out, 0, channel as u64);
    let end = put_finding(out, at, finding);
    print(printer, complaints, out, end)
}

// Prints verdict after verdict, up to one that can't be written. Whether all were.
fn say_findings(
    printer: &impl Print,
    complaints: &impl Print,
    out: &mut [u8],
    words: &[u64],
) -> bool {
    for channel in 0..CHANNEL_IDS as u8 {
        let finding = conduct::finding(words, channel);
        if !say_finding(printer, complaints, out, channel, finding) {
            return false;
        }
    }
    true
}

// What a turn left: what came of the capture, and the counts.
#[derive(Clone, Copy)]
struct Left {
    came: Came,
    tally: Tally,
}

// One turn: the next record is judged by its number, and counted; "a capture .. refused with 25 or 26, is reported as undecided for all channels".
#[tactic(auto, using(records::proofs::Pieces::came_inside))]
fn turn<R: Read>(
    reader: &mut R,
    buffer: &mut [u8],
    words: &mut [u64],
    input: Input,
    tally: Tally,
    number: u64,
    ports: Ports,
    id: DatalinkId,
) -> Left
    ensures { TurnedTo ports id number buffer.old input tally words.old result buffer.new words.new }
{
    let came = records::read_record(reader, buffer, input);
    match came {
        Came::End => Left { came, tally },
        Came::Record {
            from,
            to,
            original,
            ..
        } => {
            let seen = conduct::judge(words, number, &buffer[from..to], original, ports, id);
            Left {
                came,
                tally: conduct::tallied(tally, seen),
            }
        }
        Came::Refused(_) => {
            conduct::undecide(words);
            Left { came, tally }
        }
    }
}

// Turn after turn, by the records' numbers from 1. Nothing says that a capture ends, so the turns are counted.
fn serve<R: Read>(
    reader: &mut R,
    buffer: &mut [u8],
    words: &mut [u64],
    ports: Ports,
    id: DatalinkId,
) -> Tally
    ensures { Served ports id buffer.old words.old result words.new }
{
    let mut input = records::start();
    let mut tally = Tally {
        judged: 0,
        skipped: 0,
    };
    for before in 0..u64::MAX {
        let number = before + 1;
        let left = turn(reader, buffer, words, input, tally, number, ports, id);
        let came = left.came;
        tally = left.tally;
        match came {
            Came::End => return tally,
            Came::Record { rest, .. } => input = rest,
            Came::Refused(_) => return tally,
        }
    }
    tally
}

// On standard error, so that the verdicts stay alone: a capture of which nothing was judged has no breach, and says nothing of the endpoint.
fn say_tally(complaints: &impl Print, out: &mut [u8], tally: Tally) {
    let at = text::put(out, 0, b"judged ");
    let end = text::put_number(out, at, tally.judged);
    let next = text::put(out, end, b" skipped ");
    let last = text::put_number(out, next, tally.skipped);
    let behind = text::put(out, last, b"\n");
    if behind <= out.len() {
        complain(complaints, &out[0..behind]);
    }
}

#[tactic(auto, using(crate::proofs::Serving::judged_by_lem))]
fn judge<R: Read, O: Print, E: Print>(
    reader: &mut R,
    printer: &O,
    complaints: &E,
    buffer: &mut [u8],
    words: &mut [u64],
    out: &mut [u8],
    ports: Ports,
    id: DatalinkId,
)
    ensures { Judged ports id buffer.old (length words.old) words.new }
{
    conduct::start(words);
    let tally = serve(reader, buffer, words, ports, id);
    if say_findings(printer, complaints, out, words) {
        say_tally(complaints, out, tally);
    }
}

fn main(rt: HostRuntime) {
    let mut reader = rt.stdin();
    let printer = rt.stdout();
    let complaints = rt.stderr();
    let setting = capture_words::asked(&rt);
    if !setting.good {
        complain(&complaints, &capture_words::USAGE);
        return;
    }
    let header = b"channel verdict\n";
    if !print(&printer, &complaints, header, header.len()) {
        return;
    }
    let ports = setting.ports;
    let id = setting.id;
    let mut buffer = [0u8; ROOM];
    let mut words = [0u64; WORDS];
    let mut out = [0u8; LINE];
    judge(
        &mut reader,
        &printer,
        &complaints,
        &mut buffer,
        &mut words,
        &mut out,
        ports,
        id,
    );
}
