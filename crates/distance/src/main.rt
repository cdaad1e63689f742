// Document 01, "Counting": reads lines of sequence and window, and prints a header and the answer to each.
#![tactic(auto)]

use lines::Found;
use std::io::Read;

// How many bytes are held at once. A line that has no room is no two numbers (`long_bad` of counting's laws), and is
// answered as an empty line is.
const ROOM: usize = 65536;

// Says something on standard error, where nothing is left to say of what can't be written there.
fn complain(complaints: &impl Print, text: &[u8]) {
    let _said = complaints.write_all(text).is_ok();
}

// Prints the first bytes of a stretch. Whether they were written; if not, that is said on standard error.
fn print(printer: &impl Print, complaints: &impl Print, out: &[u8], count: usize) -> bool {
    if count <= out.len() {
        if printer.write_all(&out[0..count]).is_ok() {
            return true;
        }
    }
    complain(complaints, &lines::UNWRITTEN);
    false
}

// Prints the answer to a line. Whether it was written.
fn say(printer: &impl Print, complaints: &impl Print, line: &[u8]) -> bool {
    let mut out = [0u8; distance_line::ANSWER];
    let n = distance_line::answer(line, &mut out);
    let end = text::put(&mut out, n, b"\n");
    print(printer, complaints, &out, end)
}

// Answers line after line, up to the end or to what can't be read or written. Nothing says that an input ends, so the
// turns are counted.
fn serve(reader: &mut impl Read, printer: &impl Print, complaints: &impl Print, buffer: &mut [u8]) {
    let mut input = lines::start();
    // Counted down, and no `for`: the edit `two_turns` counts each turn twice here.
    let mut turns = u64::MAX;
    while turns > 0 {
        turns -= 1;
        match lines::next(buffer, input) {
            Found::More => input = lines::fill(reader, buffer, input),
            Found::End => return,
            Found::Line { from, to, rest } => {
                if !say(printer, complaints, &buffer[from..to]) {
                    return;
                }
                input = rest;
            }
            Found::Over(rest) => {
                if !say(printer, complaints, b"") {
                    return;
                }
                input = rest;
            }
            Found::Failed => {
                complain(complaints, &lines::UNREAD);
                return;
            }
        }
    }
}

// An array that is lent as an array asks no proof of its length.
fn hold(
    reader: &mut impl Read,
    printer: &impl Print,
    complaints: &impl Print,
    buffer: &mut [u8; ROOM],
) {
    serve(reader, printer, complaints, buffer);
}

fn main(rt: HostRuntime) {
    let mut reader = rt.stdin();
    let printer = rt.stdout();
    let complaints = rt.stderr();
    let header = b"sequence window distance\n";
    if !print(&printer, &complaints, header, header.len()) {
        return;
    }
    let mut buffer = [0u8; ROOM];
    hold(&mut reader, &printer, &complaints, &mut buffer);
}
