// Where each number stands in the lent words. specs/Words.antt has the same names, with `-` for `_`.
// The radio's own words, before those of the channels.
pub const HEAD: usize = 8;

pub const DATALINK_WORD: usize = 0;

pub const COUNT_WORD: usize = 1;

pub const INSTANCE_TAG: usize = 2;

pub const INSTANCE_VALUE: usize = 3;

pub const INSTANCE_LENGTH: usize = 4;

pub const CONTEXT_TAG: usize = 5;

pub const CONTEXT_VALUE: usize = 6;

pub const CONTEXT_LENGTH: usize = 7;

// A channel's words.
pub const SLOT: usize = 8;

pub const ID: usize = 0;

pub const KIND: usize = 1;

pub const WATERMARK: usize = 2;

pub const THROUGHPUT: usize = 3;

pub const STATUS: usize = 4;

pub const QUEUED: usize = 5;

pub const HIGHEST_TAG: usize = 6;

pub const HIGHEST_VALUE: usize = 7;

// Kinds of a channel.
pub const PLAIN: u64 = 0;

pub const CONTROLLED: u64 = 1;

// Tags of the highest sequence.
pub const UNHEARD: u64 = 0;

pub const HEARD: u64 = 1;
