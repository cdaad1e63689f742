// The limits of document 01, and of document 02 where it moved them, once. specs/Limits.antt has the same names, with `-` for `_`.
pub const LONGEST_DATAGRAM: usize = 65507;

pub const FEWEST_CHANNELS: usize = 1;

pub const MOST_CHANNELS: usize = 64;

pub const SHORTEST_PACKET: usize = 40;

pub const LONGEST_PACKET: usize = 9000;

pub const MOST_WAITING: usize = 32;

// How many packets may be offered in one call.
pub const MOST_AT_ONCE: usize = 32;

pub const SMALLEST_STORE: usize = 1500;

pub const LARGEST_STORE: usize = 65536;

// Channel IDs are the numbers below the reserved one.
pub const RESERVED_CHANNEL: u8 = 255;

// The number of Channel IDs, and of the places of a table over them.
pub const CHANNEL_IDS: usize = 255;

pub const HIGHEST_STATUS: u8 = 15;

// Lengths of a Link Instance and of a Datalink Context.
pub const SHORTEST_NAME: usize = 1;

pub const LONGEST_NAME: usize = 8;

// How far a window may lie above the highest sequence heard; a watermark and a throughput, too, are at most this.
pub const MOST_ALLOWANCE: usize = 2147483647;
