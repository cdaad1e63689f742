// Where each number of a configuration stands in its words. specs/Start.antt has the same names, with `-` for `_`.
// The words before those of the channels, and the words of one channel.
pub const CONFIGURATION_HEAD: usize = 2;

pub const CONFIGURATION_SLOT: usize = 4;

pub const CONFIGURED_DATALINK: usize = 0;

pub const CONFIGURED_COUNT: usize = 1;

pub const START_ID: usize = 0;

pub const START_KIND: usize = 1;

pub const START_WATERMARK: usize = 2;

pub const START_THROUGHPUT: usize = 3;
