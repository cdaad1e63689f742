// Document 01, "Numbers of refusal", by name. specs/Refusals.antt has the same names, with `-` for `_`.
pub const LONG_DATAGRAM: u8 = 1;

pub const HEADER: u8 = 2;

pub const CUT: u8 = 3;

pub const LENGTH: u8 = 4;

pub const VALUE: u8 = 5;

pub const UNLISTED: u8 = 6;

pub const REPEATED: u8 = 7;

pub const BEHIND_PACKET: u8 = 8;

pub const MISSING: u8 = 9;

pub const UNPAIRED: u8 = 10;

pub const OTHER_DATALINK: u8 = 11;

pub const NO_CHANNEL: u8 = 12;

pub const NOT_IPV6: u8 = 13;

pub const LONG_PACKET: u8 = 14;

pub const EARLIER_TIME: u8 = 15;

pub const EXPIRY_PAST: u8 = 16;

pub const FULL: u8 = 17;

pub const NO_ROOM: u8 = 18;

pub const OUTSIDE_LIMITS: u8 = 19;

pub const NOT_WRITABLE: u8 = 20;

pub const EARLIER_PACE: u8 = 21;

pub const NO_WAIT: u8 = 22;

pub const LARGE_ALLOWANCE: u8 = 23;

pub const NOT_A_HANDFUL: u8 = 24;

pub const FILE_HEAD: u8 = 25;

pub const RECORD: u8 = 26;

// A refusal: its number and its place. A number, and no enum: the theorems speak of any (`nespovarda/specs/Numbers.antt`, "256 + number"; `Lack`,
// `Fault` and `OfReading` of acceptance), and C and a handful's answers take it as one.
#[derive(Clone, Copy)]
pub struct Refusal {
    pub number: u8,
    pub place: usize,
}
