// Lines of what a reader gives, read piece by piece into one lent buffer. A line ends at a newline; a last line without one
// counts if it isn't empty. A line that has no room in the buffer with its newline is dropped, and found as over once.
// Where reading fails, the lines that ended are found, and then that it failed.
#![tactic(auto)]

ghost use Rattle.std.specs.Prelude.{◌≡◌, ◌+◌, ◌≤◌, ◌<◌, ◌^◌, length, drop, IfOk};
ghost use Rattle.lines.specs.Unread.{start_of, tidy_of, line_of, last_of, next_of, lost_of, read_of, Behind, Filled};

use std::io;
use std::io::Read;

// What was read and isn't handed on yet: a buffer from `at` to `have`.
#[derive(Clone, Copy)]
pub struct Input {
    pub at: usize,
    pub have: usize,
    // The start of its first line was dropped.
    pub over: bool,
    // Nothing more comes.
    pub ended: bool,
    // A read failed: nothing more comes, and what is there may not be all.
    pub failed: bool,
}

// What stands next in an input.
#[derive(Clone, Copy)]
pub enum Found {
    // No end of a line yet.
    More,
    // Nothing any more.
    End,
    // A line of the buffer, and the input behind it.
    Line { from: usize, to: usize, rest: Input },
    // A line that was dropped, and the input behind it.
    Over(Input),
    // Reading failed.
    Failed,
}

// What a program says on standard error where reading, or writing, failed.
pub const UNREAD: [u8; 33] = *b"standard input could not be read\n";

pub const UNWRITTEN: [u8; 37] = *b"standard output could not be written\n";

// Nothing is read yet.
pub fn start() -> Input
    ensures { result ≡ start_of }
{
    Input {
        at: 0,
        have: 0,
        over: false,
        ended: false,
        failed: false,
    }
}

// Whether what is unread lies within a buffer.
pub fn tidy(input: Input, size: usize) -> bool
    ensures { result ≡ tidy_of size input }
{
    if input.at > input.have {
        return false;
    }
    input.have <= size
}

// The line up to an index, and the input from another index on.
fn line(input: Input, to: usize, at: usize) -> Found
    ensures { result ≡ line_of input to at }
{
    let rest = Input {
        at,
        have: input.have,
        over: false,
        ended: input.ended,
        failed: input.failed,
    };
    if input.over {
        return Found::Over(rest);
    }
    Found::Line {
        from: input.at,
        to,
        rest,
    }
}

// What is left where no newline stands and nothing more comes.
fn last(input: Input) -> Found
    ensures { result ≡ last_of input }
{
    let have = input.have;
    if input.over {
        return line(input, have, have);
    }
    if input.at < have {
        return line(input, have, have);
    }
    Found::End
}

// What stands next. An input that doesn't lie within the buffer is at its end.
pub fn next(buffer: &[u8], input: Input) -> Found
    ensures { result ≡ next_of buffer.now input }
{
    if !tidy(input, buffer.len()) {
        return Found::End;
    }
    let at = input.at;
    let have = input.have;
    let to = octets::find(buffer, at, have, b'\n');
    if to < have {
        return line(input, to, to + 1);
    }
    if input.failed {
        return Found::Failed;
    }
    if input.ended {
        return last(input);
    }
    Found::More
}

// Whether the unread line is dropped: its start was, or it fills the buffer.
fn lost(input: Input, size: usize) -> bool
    ensures { result ≡ lost_of size input }
{
    if input.over {
        return true;
    }
    if input.at > 0 {
        return false;
    }
    input.have == size
}

// What a read's answer leaves: of one that failed, as of one without a new byte, that nothing more comes.
fn after(answer: io::Result<usize>, kept: usize, over: bool) -> Input
    requires { IfOk answer (λ n. kept + n < 2 ^ 64) }
    ensures { result ≡ read_of answer kept over }
{
    let failed = answer.is_err();
    let have = kept + answer.unwrap_or(0);
    Input {
        at: 0,
        have,
        over,
        ended: have == kept,
        failed,
    }
}

// Reads behind the bytes that are kept. No contract can say which bytes the system hands over.
fn read_behind<R: Read>(reader: &mut R, buffer: &mut [u8], kept: usize, over: bool) -> Input
    requires { kept ≤ length buffer.old }
    ensures { Behind buffer.old kept over result buffer.new }
{
    let answer = reader.read(&mut buffer[kept..]);
    after(answer, kept, over)
}

// Moves what is unread to the start of the buffer and reads more behind it.
pub fn fill<R: Read>(reader: &mut R, buffer: &mut [u8], input: Input) -> Input
    ensures { Filled buffer.old input result buffer.new }
{
    if !tidy(input, buffer.len()) {
        return Input {
            at: 0,
            have: 0,
            over: false,
            ended: true,
            failed: false,
        };
    }
    if lost(input, buffer.len()) {
        return read_behind(reader, buffer, 0, true);
    }
    buffer.copy_within(input.at..input.have, 0);
    read_behind(reader, buffer, input.have - input.at, false)
}
