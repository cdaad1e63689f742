// Where each number stands in the lent words. specs/Words.antt has the same names, with `-` for `_`.
use quantity::limit::MOST_WAITING;

// The endpoint's own words, before those of the channels.
pub const HEAD: usize = 14;

pub const DATALINK_WORD: usize = 0;

pub const COUNT_WORD: usize = 1;

pub const INSTANCE_TAG: usize = 2;

pub const INSTANCE_VALUE: usize = 3;

pub const INSTANCE_LENGTH: usize = 4;

pub const CONTEXT_TAG: usize = 5;

pub const CONTEXT_VALUE: usize = 6;

pub const CONTEXT_LENGTH: usize = 7;

// The pacer's: two waits as configured, and three times.
pub const HELLO_WORD: usize = 8;

pub const LIMIT_WORD: usize = 9;

pub const CLOCK_WORD: usize = 10;

pub const DUE_WORD: usize = 11;

pub const HEARD_WORD: usize = 12;

// Which of the statuses 8 to 15 are operational, as configured.
pub const CODES_WORD: usize = 13;

// A channel's words before those of what waits, what one waiting packet takes, and all of them.
pub const FIXED: usize = 10;

pub const ENTRY: usize = 2;

pub const SLOT: usize = FIXED + ENTRY * MOST_WAITING;

pub const ID: usize = 0;

pub const KIND: usize = 1;

pub const SIZE: usize = 2;

pub const STATUS_TAG: usize = 3;

pub const STATUS_VALUE: usize = 4;

pub const FLOW_TAG: usize = 5;

pub const FLOW_WINDOW: usize = 6;

pub const SEQUENCE: usize = 7;

pub const LATEST: usize = 8;

pub const WAITING: usize = 9;

// A waiting packet's expiry stands behind its length.
pub const EXPIRY: usize = 1;

// Kinds of a channel.
pub const PLAIN: u64 = 0;

pub const CONTROLLED: u64 = 1;

// Tags of a Status, a Link Instance and a Context.
pub const ABSENT: u64 = 0;

pub const GIVEN: u64 = 1;

// Tags of a flow state.
pub const FREE: u64 = 0;

pub const NO_WINDOW: u64 = 1;

pub const IN_FORCE: u64 = 2;

// Numbers of 8 and of 32 bits are below these.
pub const BYTE_VALUES: u64 = 256;

pub const COUNT_VALUES: u64 = 4294967296;
