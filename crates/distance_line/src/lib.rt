// Document 01, "Counting": the answer to one line of sequence and window.
#![tactic(auto)]

ghost use Rattle.std.specs.Prelude.{◌≡◌, ◌+◌, ◌≤◌, length};
ghost use Rattle.text.specs.Laying.{Lays, Wrote};
ghost use Rattle.distance_line.specs.Answer.{PART, ROW, spaced, row_of, read_of, answer_of};

use quantity::count::{FlowSequence, FlowWindow, distance};

// The largest number of 32 bits.
const MOST: u64 = 4294967295;

// Room for an answer, of at most 33 bytes, and for what ends its line.
pub const ANSWER: usize = 40;

// The two numbers of a line.
fn read_line(line: &[u8]) -> Option<(FlowSequence, FlowWindow)>
    ensures { result ≡ read_of line.now }
{
    let rest = text::tail(line);
    let sequence = text::parse(text::head(line), MOST)?;
    let window = text::parse(text::word(rest), MOST)?;
    if text::beyond(rest).len() > 0 {
        return None;
    }
    Some((FlowSequence(sequence as u32), FlowWindow(window as u32)))
}

// Lays a number and a space.
fn put_spaced(out: &mut [u8], at: usize, value: u32) -> usize
    requires { at + PART ≤ length out.old }
    ensures { Lays out.old at (spaced value) result out.new }
{
    let end = text::put_number(out, at, value as u64);
    text::put(out, end, b" ")
}

// Lays sequence, window and distance at the start of an output.
fn put_row(out: &mut [u8], sequence: FlowSequence, window: FlowWindow) -> usize
    requires { ROW ≤ length out.old }
    ensures { Wrote out.old (row_of sequence window) result out.new }
{
    let first = put_spaced(out, 0, sequence.0);
    let second = put_spaced(out, first, window.0);
    text::put_signed(out, second, distance(sequence, window))
}

// The answer, laid into an output of any length that has room for it.
fn answer_into(line: &[u8], out: &mut [u8]) -> usize
    requires { ROW ≤ length out.old }
    ensures { Wrote out.old (answer_of line.now) result out.new }
{
    let Some((sequence, window)) = read_line(line) else {
        return text::put(out, 0, b"bad");
    };
    put_row(out, sequence, window)
}

// The answer to a line, laid at the start of an output. Gives its length.
pub fn answer(line: &[u8], out: &mut [u8; ANSWER]) -> usize
    ensures { Wrote out.old (answer_of line.now) result out.new }
{
    answer_into(line, out)
}
