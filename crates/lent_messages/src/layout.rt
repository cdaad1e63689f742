// Where each word of a message stands. specs/Layout.antt has the same names, with `-` for `_`.
use quantity::limit::CHANNEL_IDS;

// Tags: of what may be stated or not; and of a Flow Window, without the field or with it.
pub const ABSENT: u64 = 0;

pub const GIVEN: u64 = 1;

pub const FIELD_EMPTY: u64 = 1;

pub const FIELD_GIVEN: u64 = 2;

// A control message's first words.
pub const DATALINK_TAG: usize = 0;

pub const DATALINK_VALUE: usize = 1;

pub const INSTANCE_TAG: usize = 2;

pub const INSTANCE_VALUE: usize = 3;

pub const INSTANCE_LENGTH: usize = 4;

pub const CONTEXT_TAG: usize = 5;

pub const CONTEXT_VALUE: usize = 6;

pub const CONTEXT_LENGTH: usize = 7;

pub const CONTROL_HEAD: usize = 8;

// The words of each Channel ID, behind them.
pub const STATUS_TAG: usize = 0;

pub const STATUS_VALUE: usize = 1;

pub const SEQUENCE_TAG: usize = 2;

pub const SEQUENCE_VALUE: usize = 3;

pub const WINDOW_TAG: usize = 4;

pub const WINDOW_VALUE: usize = 5;

pub const CHANNEL_WORDS: usize = 6;

pub const CONTROL_WORDS: usize = CONTROL_HEAD + CHANNEL_WORDS * CHANNEL_IDS;

// A data message's words, behind those of its Datalink ID.
pub const COUNTED_TAG: usize = 2;

pub const COUNTED_CHANNEL: usize = 3;

pub const COUNTED_SEQUENCE: usize = 4;

pub const CHANNEL_TAG: usize = 5;

pub const CHANNEL_VALUE: usize = 6;

pub const EXPIRATION_TAG: usize = 7;

pub const EXPIRATION_VALUE: usize = 8;

pub const PACKET_START: usize = 9;

pub const PACKET_LENGTH: usize = 10;

pub const DATA_WORDS: usize = 11;

// 2^8 and 2^32: what a byte and a word of 32 bits stay below.
pub const BYTE: u64 = 256;

pub const HALF: u64 = 4294967296;
