// An answer of any call as two numbers, for callers that share no types with Rattle. specs/Codes.antt has the same names, with `-` for `_`.
#![tactic(auto)]

ghost use Rattle.std.specs.Prelude.{◌≡◌};
ghost use Rattle.answer_codes.specs.Codes.{code_of, plainly, counting, refused_as, written_as};

use quantity::count::ByteCount;
use quantity::refusal::Refusal;

pub const STARTED: u64 = 1;

pub const TAKEN: u64 = 2;

pub const SENT: u64 = 3;

pub const NOTHING_WAITING: u64 = 4;

pub const NOT_OPERATIONAL: u64 = 5;

pub const WINDOW_SHUT: u64 = 6;

pub const WITHDRAWN: u64 = 7;

pub const ACCEPTED: u64 = 8;

pub const DUE: u64 = 9;

pub const OTHER_PLANE: u64 = 10;

pub const WROTE: u64 = 11;

pub const SHOWN: u64 = 12;

pub const KEPT: u64 = 13;

pub const NONE_THERE: u64 = 14;

pub const QUIET: u64 = 15;

pub const QUERY_DUE: u64 = 16;

pub const SILENT: u64 = 17;

pub const QUERY_DUE_SILENT: u64 = 18;

pub const PACER_SHOWN: u64 = 19;

pub const ANSWERED: u64 = 20;

pub const UNASKED: u64 = 21;

pub const NO_MESSAGE: u64 = 22;

pub const OFFERED: u64 = 23;

// From here on a kind is a refusal: this and its number.
pub const REFUSED: u64 = 256;

// The kind; and the message's length, the refusal's place, or 0. Two numbers come back in registers, on x86-64 and on Arm alike.
#[repr(C)]
#[derive(Clone, Copy)]
pub struct Answer {
    pub kind: u64,
    pub value: u64,
}

// An answer that has no number beside its kind.
pub fn plain(kind: u64) -> Answer
    ensures { result ≡ plainly kind }
{
    Answer { kind, value: 0 }
}

// An answer with the message's length.
pub fn counted(kind: u64, bytes: usize) -> Answer
    ensures { result ≡ counting kind bytes }
{
    Answer {
        kind,
        value: bytes as u64,
    }
}

pub fn refused(refusal: Refusal) -> Answer
    ensures { result ≡ code_of (refused_as refusal) }
{
    Answer {
        kind: REFUSED + refusal.number as u64,
        value: refusal.place as u64,
    }
}

pub fn of_write(answer: Result<ByteCount, Refusal>) -> Answer
    ensures { result ≡ code_of (written_as answer) }
{
    match answer {
        Ok(length) => counted(WROTE, length.0),
        Err(refusal) => refused(refusal),
    }
}
