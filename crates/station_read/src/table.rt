// The commands of the station page, in its order: specs/Lines.antt has the same rows.
use line_rows::{BYTES, LIST, NUMBER};
use quantity::limit::{LARGEST_STORE, MOST_CHANNELS};

// plain
pub(crate) const PLAIN: u64 = 0x6e69616c70;

// flow
pub(crate) const FLOW: u64 = 0x776f6c66;

// start
pub(crate) const START: u64 = 0x7472617473;

// hear
pub(crate) const HEAR: u64 = 0x72616568;

// status
pub(crate) const STATUS: u64 = 0x737574617473;

// context
pub(crate) const CONTEXT: u64 = 0x747865746e6f63;

// queued
pub(crate) const QUEUED: u64 = 0x646575657571;

// link
pub(crate) const LINK: u64 = 0x6b6e696c;

// tell
pub(crate) const TELL: u64 = 0x6c6c6574;

// show
pub(crate) const SHOW: u64 = 0x776f6873;

// A byte: a Datalink ID, a Channel ID, a status, a length.
const HIGHEST_BYTE: u64 = 255;

// As on the session page: all stores that an endpoint takes.
const MOST_ROOM: u64 = (MOST_CHANNELS * LARGEST_STORE) as u64;

const MOST_SETTINGS: u64 = 80;

// No line says more numbers: ID, COUNT and four for each channel.
pub const PLACES: usize = 322;

pub(crate) const COMMANDS: [u64; 58] = [
    // start ID COUNT, and CHANNEL KIND WATERMARK THROUGHPUT for each channel
    START,
    7,
    NUMBER,
    HIGHEST_BYTE,
    NUMBER,
    MOST_SETTINGS,
    LIST,
    4,
    NUMBER,
    HIGHEST_BYTE,
    PLAIN,
    FLOW,
    NUMBER,
    u64::MAX,
    NUMBER,
    u64::MAX,
    // hear ROOM HEX
    HEAR,
    2,
    NUMBER,
    MOST_ROOM,
    BYTES,
    0,
    // status CHANNEL VALUE ROOM
    STATUS,
    3,
    NUMBER,
    HIGHEST_BYTE,
    NUMBER,
    HIGHEST_BYTE,
    NUMBER,
    MOST_ROOM,
    // context HEX ROOM
    CONTEXT,
    2,
    BYTES,
    0,
    NUMBER,
    MOST_ROOM,
    // queued CHANNEL BYTES ROOM
    QUEUED,
    3,
    NUMBER,
    HIGHEST_BYTE,
    NUMBER,
    u64::MAX,
    NUMBER,
    MOST_ROOM,
    // link LEN VALUE
    LINK,
    2,
    NUMBER,
    HIGHEST_BYTE,
    NUMBER,
    u64::MAX,
    // tell ROOM
    TELL,
    1,
    NUMBER,
    MOST_ROOM,
    // show CHANNEL
    SHOW,
    1,
    NUMBER,
    HIGHEST_BYTE,
];
