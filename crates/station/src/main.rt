// The station script, the radio's end: reads a line, writes its answer, and stops early only where reading or writing fails. A command is a row of `station_read`'s table and a call here.
#![tactic(auto)]

ghost use Rattle.std.specs.Prelude.{◌≡◌, [], ◌≤◌, min, length, take};
ghost use Rattle.message_words.specs.Saying.{Says};
ghost use Rattle.radio_end_state.specs.Calls.{heard, status_told, queued_told, context_told, link_told, told};
ghost use Rattle.radio_end_words.specs.Words.{state_in};
ghost use Rattle.station_read.specs.Lines.{context_said};
ghost use Rattle.station_print.specs.Answers.{ANSWER as ANSWER-TEXT, UNASKED, TELL, HEARD, UNCHANGED, KEPT};
ghost use Rattle.station.specs.Turns.{link_said, show_texts, called, commanded, stated, begun, asking, answered, Turns, Calls};

use lines::Found;
use message_words::whole::refused;
use quantity::count::{ByteCount, LinkInstanceId};
use quantity::limit::{LONGEST_DATAGRAM, MOST_CHANNELS};
use radio_end_words::layout::{HEAD, SLOT};
use station_read::{Asked, Command, PLACES};
use std::io::Read;

// The longest line of 140,000 bytes stands in the buffer with its newline.
const ROOM: usize = 140001;

// The longest answer is a message of 65,507 bytes in hexadecimal, with a word before it.
const ANSWER: usize = 140000;

// The bytes that a line says have half its length at most.
const BYTES: usize = 70000;

// The words of a state of the most channels.
const WORDS: usize = HEAD + SLOT * MOST_CHANNELS;

// Whether a state was started, and how many of the words are its own.
#[derive(Clone, Copy)]
struct Held {
    started: bool,
    words: usize,
}

// What is held behind a line, and how long its answer is.
#[derive(Clone, Copy)]
struct Turn {
    held: Held,
    count: usize,
}

// What is held behind a line, and whether its answer was written.
#[derive(Clone, Copy)]
struct Said {
    held: Held,
    written: bool,
}

// `hear ROOM HEX`
fn hear_line(words: &mut [u64], datagram: &[u8], output: &mut [u8], out: &mut [u8]) -> usize
    ensures { Calls (called ANSWER-TEXT HEARD words.old (heard (state_in words.old) datagram.now output.old)) out.old result words.new out.new }
{
    let answer = radio_end::hear(words, datagram, output);
    station_print::answered(out, answer, output, b"answer ", b"heard")
}

// `status CHANNEL VALUE ROOM`
fn status_line(words: &mut [u64], id: u8, value: u8, output: &mut [u8], out: &mut [u8]) -> usize
    ensures { Calls (called UNASKED UNCHANGED words.old (status_told (state_in words.old) id value output.old)) out.old result words.new out.new }
{
    let answer = radio_end::tell_status(words, id, value, output);
    station_print::answered(out, answer, output, b"unasked ", b"unchanged")
}

// `context HEX ROOM`
fn context_line(words: &mut [u64], bytes: &[u8], output: &mut [u8], out: &mut [u8]) -> usize
    ensures { Calls (called UNASKED UNCHANGED words.old (context_told (state_in words.old) (context_said bytes.now) output.old)) out.old result words.new out.new }
{
    let answer = radio_end::tell_context(words, station_read::context_said(bytes), output);
    station_print::answered(out, answer, output, b"unasked ", b"unchanged")
}

// `queued CHANNEL BYTES ROOM`
fn queued_line(words: &mut [u64], id: u8, bytes: u64, output: &mut [u8], out: &mut [u8]) -> usize
    ensures { Calls (called UNASKED UNCHANGED words.old (queued_told (state_in words.old) id (record { 0 = bytes }) output.old)) out.old result words.new out.new }
{
    let answer = radio_end::tell_queued(words, id, ByteCount(bytes as usize), output);
    station_print::answered(out, answer, output, b"unasked ", b"unchanged")
}

// `link LEN VALUE`
fn link_line(words: &mut [u64], length: u8, value: u64, out: &mut [u8]) -> usize
    ensures { Calls (called UNASKED KEPT words.old (link_told (state_in words.old) (link_said length value) [])) out.old result words.new out.new }
{
    let instance = Some((LinkInstanceId(value), length as usize));
    let answer = radio_end::tell_link(words, instance);
    station_print::answered(out, answer, b"", b"unasked ", b"kept")
}

// `tell ROOM`
fn tell_line(words: &[u64], output: &mut [u8], out: &mut [u8]) -> usize
    ensures { Calls (called TELL UNCHANGED words.now (told (state_in words.now) output.old)) out.old result words.now out.new }
{
    let answer = radio_end::tell(words, output);
    station_print::answered(out, answer, output, b"tell ", b"unchanged")
}

// `show CHANNEL`
fn show_line(words: &[u64], id: u8, out: &mut [u8]) -> usize
    ensures { Says out.old 0 (show_texts (state_in words.now) id) result out.new }
{
    match radio_end::show(words, id) {
        Ok(channel) => station_print::channel(out, channel),
        Err(refusal) => refused(out, 0, refusal),
    }
}

// A line about a state that was started, on the state's own words and an output of ROOM bytes.
fn command_line(
    words: &mut [u64],
    command: Command,
    bytes: &[u8],
    output: &mut [u8],
    out: &mut [u8],
) -> usize
    ensures { Calls (commanded command words.old bytes.now output.old) out.old result words.new out.new }
{
    match command {
        Command::Hear => hear_line(words, bytes, output, out),
        Command::Status(id, value) => status_line(words, id, value, output, out),
        Command::Context => context_line(words, bytes, output, out),
        Command::Queued(id, count) => queued_line(words, id, count, output, out),
        Command::Link(length, value) => link_line(words, length, value, out),
        Command::Tell => tell_line(words, output, out),
        Command::Show(id) => show_line(words, id, out),
    }
}

// A line about a state, which is a bad line before one was started.
fn state_line(
    held: Held,
    words: &mut [u64],
    command: Command,
    room: usize,
    bytes: &[u8],
    output: &mut [u8],
    out: &mut [u8],
) -> usize
    ensures { Calls (stated held words.old command room bytes.now output.old) out.old result words.new out.new }
{
    if !held.started {
        return station_print::bad_line(out);
    }
    let own = held.words.min(words.len());
    let size = room.min(output.len());
    command_line(
        &mut words[0..own],
        command,
        bytes,
        &mut output[0..size],
        out,
    )
}

// `start ..`: a refused one leaves the words as they were, so the state before it goes on.
fn start_line(
    held: Held,
    words: &mut [u64],
    channels: usize,
    numbers: &[u64; PLACES],
    out: &mut [u8],
) -> Turn
    ensures { Turns (begun held words.old channels numbers.now) out.old result words.new out.new }
{
    let own = radio_end::words_for(channels).min(words.len());
    let configuration = station_read::configuration(numbers, channels);
    match radio_end_start::start(&mut words[0..own], configuration) {
        Ok(()) => Turn {
            held: Held {
                started: true,
                words: own,
            },
            count: station_print::started(out),
        },
        Err(refusal) => Turn {
            held,
            count: refused(out, 0, refusal),
        },
    }
}

// What a line asks for, with the numbers and the bytes that it says.
fn asked_line(
    held: Held,
    words: &mut [u64],
    asked: Asked,
    numbers: &[u64; PLACES],
    bytes: &[u8],
    output: &mut [u8],
    out: &mut [u8],
) -> Turn
    ensures { Turns (asking held words.old asked numbers.now bytes.now output.old) out.old result words.new out.new }
{
    match asked {
        Asked::Bad => Turn {
            held,
            count: station_print::bad_line(out),
        },
        Asked::Start(channels) => start_line(held, words, channels, numbers, out),
        Asked::State(command, room) => Turn {
            held,
            count: state_line(held, words, command, room, bytes, output, out),
        },
    }
}

// Any line is answered as its definition says.
#[tactic(auto, using(crate::proofs::Laws::bytes_within))]
fn answer_line(
    held: Held,
    words: &mut [u64],
    line: &[u8],
    bytes: &mut [u8],
    output: &mut [u8],
    out: &mut [u8],
) -> Turn
    ensures { Turns (answered held words.old (length bytes.old) line.now output.old) out.old result words.new out.new }
{
    let mut numbers = [0u64; PLACES];
    let said = station_read::read(line, &mut numbers, bytes);
    let asked = said.asked;
    asked_line(
        held,
        words,
        asked,
        &numbers,
        &bytes[..said.bytes],
        output,
        out,
    )
}

// Says something on standard error, where nothing is left to say of what can't be written there.
// Each program has its own `complain` and `print`: `Print` promises nothing of what it writes, and a public function promises its whole outcome.
fn complain(complaints: &impl Print, text: &[u8]) {
    let _said = complaints.write_all(text).is_ok();
}

// Prints the first bytes of a stretch. Whether they were written; if not, that is said on standard error.
fn print(printer: &impl Print, complaints: &impl Print, out: &[u8], count: usize) -> bool {
    if count <= out.len() {
        if printer.write_all(&out[0..count]).is_ok() {
            return true;
        }
    }
    complain(complaints, &lines::UNWRITTEN);
    false
}

// Prints the answer to a line.
fn say(
    printer: &impl Print,
    complaints: &impl Print,
    held: Held,
    words: &mut [u64],
    line: &[u8],
    bytes: &mut [u8],
    output: &mut [u8],
    out: &mut [u8],
) -> Said {
    let turn = answer_line(held, words, line, bytes, output, out);
    let end = text::put(out, turn.count, b"\n");
    let left = turn.held;
    Said {
        held: left,
        written: print(printer, complaints, out, end),
    }
}

// Not one loop with the other script's: a shared loop would be public, and would have to say by a relation of its closure's calls what each line was.
// Answers line after line, up to the end or to what can't be read or written. Nothing says that an input ends, so the turns are counted.
#[tactic(auto, using(lines::proofs::Laws::next_inside))]
fn serve(
    reader: &mut impl Read,
    printer: &impl Print,
    complaints: &impl Print,
    buffer: &mut [u8],
    words: &mut [u64],
    bytes: &mut [u8],
    output: &mut [u8],
    out: &mut [u8],
) {
    let mut held = Held {
        started: false,
        words: 0,
    };
    let mut input = lines::start();
    for _turn in 0..u64::MAX {
        match lines::next(buffer, input) {
            Found::More => input = lines::fill(reader, buffer, input),
            Found::End => return,
            Found::Line { from, to, rest } => {
                let said = say(
                    printer,
                    complaints,
                    held,
                    words,
                    &buffer[from..to],
                    bytes,
                    output,
                    out,
                );
                if !said.written {
                    return;
                }
                held = said.held;
                input = rest;
            }
            Found::Over(rest) => {
                let said = say(printer, complaints, held, words, b"", bytes, output, out);
                if !said.written {
                    return;
                }
                held = said.held;
                input = rest;
            }
            Found::Failed => {
                complain(complaints, &lines::UNREAD);
                return;
            }
        }
    }
}

// An array that is lent as an array asks no proof of its length. Lent as slices by `main`, the check runs out of stack at the longest of them.
fn hold(
    reader: &mut impl Read,
    printer: &impl Print,
    complaints: &impl Print,
    buffer: &mut [u8; ROOM],
    words: &mut [u64; WORDS],
    bytes: &mut [u8; BYTES],
    output: &mut [u8; LONGEST_DATAGRAM],
    out: &mut [u8; ANSWER],
) {
    serve(
        reader, printer, complaints, buffer, words, bytes, output, out,
    );
}

fn main(rt: HostRuntime) {
    let mut reader = rt.stdin();
    let printer = rt.stdout();
    let complaints = rt.stderr();
    let mut buffer = [0u8; ROOM];
    let mut words = [0u64; WORDS];
    let mut bytes = [0u8; BYTES];
    let mut output = [0u8; LONGEST_DATAGRAM];
    let mut out = [0u8; ANSWER];
    hold(
        &mut reader,
        &printer,
        &complaints,
        &mut buffer,
        &mut words,
        &mut bytes,
        &mut output,
        &mut out,
    );
}
