// The commands of the session page, in its order: specs/Lines.antt has the same rows.
use line_rows::{BYTES, LIST, NUMBER, OPTIONAL};
use quantity::limit::{LARGEST_STORE, MOST_CHANNELS};

// ips
pub(crate) const IPS: u64 = 0x737069;

// radio
pub(crate) const RADIO: u64 = 0x6f69646172;

// plain
pub(crate) const PLAIN: u64 = 0x6e69616c70;

// flow
pub(crate) const FLOW: u64 = 0x776f6c66;

// memory
pub(crate) const MEMORY: u64 = 0x79726f6d656d;

// codes
pub(crate) const CODES: u64 = 0x7365646f63;

// channels
pub(crate) const CHANNELS: u64 = 0x736c656e6e616863;

// expiries
pub(crate) const EXPIRIES: u64 = 0x7365697269707865;

// lengths
pub(crate) const LENGTHS: u64 = 0x736874676e656c;

// answers
pub(crate) const ANSWERS: u64 = 0x73726577736e61;

// read
pub(crate) const READ: u64 = 0x64616572;

// echo
pub(crate) const ECHO: u64 = 0x6f686365;

// start
pub(crate) const START: u64 = 0x7472617473;

// offer
pub(crate) const OFFER: u64 = 0x726566666f;

// offers
pub(crate) const OFFERS: u64 = 0x73726566666f;

// next
pub(crate) const NEXT: u64 = 0x7478656e;

// withdraw
pub(crate) const WITHDRAW: u64 = 0x7761726468746977;

// query
pub(crate) const QUERY: u64 = 0x7972657571;

// show
pub(crate) const SHOW: u64 = 0x776f6873;

// store
pub(crate) const STORE: u64 = 0x65726f7473;

// kept
pub(crate) const KEPT: u64 = 0x7470656b;

// pace
pub(crate) const PACE: u64 = 0x65636170;

// pacer
pub(crate) const PACER: u64 = 0x7265636170;

const HIGHEST_ID: u64 = 255;

const HIGHEST_SEQUENCE: u64 = 4294967295;

const HIGHEST_MASK: u64 = 255;

// All stores that an endpoint takes.
const MOST_ROOM: u64 = (MOST_CHANNELS * LARGEST_STORE) as u64;

pub(crate) const MOST_SETTINGS: u64 = 80;

// No line says more numbers.
pub(crate) const PLACES: usize = 329;

pub(crate) const COMMANDS: [u64; 138] = [
    // read END ID HEX
    READ,
    3,
    IPS,
    RADIO,
    NUMBER,
    HIGHEST_ID,
    BYTES,
    0,
    // echo END ID HEX END2 ROOM
    ECHO,
    5,
    IPS,
    RADIO,
    NUMBER,
    HIGHEST_ID,
    BYTES,
    0,
    IPS,
    RADIO,
    NUMBER,
    MOST_ROOM,
    // start ID COUNT, CHANNEL KIND FIRST STORE for each channel, and perhaps memory LEN, pace HELLO LIMIT, codes MASK
    START,
    17,
    NUMBER,
    HIGHEST_ID,
    NUMBER,
    MOST_SETTINGS,
    LIST,
    4,
    NUMBER,
    HIGHEST_ID,
    PLAIN,
    FLOW,
    NUMBER,
    HIGHEST_SEQUENCE,
    NUMBER,
    MOST_ROOM,
    OPTIONAL,
    MEMORY,
    LIST,
    1,
    NUMBER,
    MOST_ROOM,
    OPTIONAL,
    PACE,
    LIST,
    2,
    NUMBER,
    u64::MAX,
    NUMBER,
    u64::MAX,
    OPTIONAL,
    CODES,
    LIST,
    1,
    NUMBER,
    HIGHEST_MASK,
    // offer CHANNEL NOW EXPIRY HEX
    OFFER,
    4,
    NUMBER,
    HIGHEST_ID,
    NUMBER,
    u64::MAX,
    NUMBER,
    u64::MAX,
    BYTES,
    0,
    // offers NOW, channels N and C for each, expiries N and E for each, lengths N and L for each, answers N, HEX
    OFFERS,
    16,
    NUMBER,
    u64::MAX,
    CHANNELS,
    CHANNELS,
    NUMBER,
    MOST_SETTINGS,
    LIST,
    1,
    NUMBER,
    HIGHEST_ID,
    EXPIRIES,
    EXPIRIES,
    NUMBER,
    MOST_SETTINGS,
    LIST,
    1,
    NUMBER,
    u64::MAX,
    LENGTHS,
    LENGTHS,
    NUMBER,
    MOST_SETTINGS,
    LIST,
    1,
    NUMBER,
    MOST_ROOM,
    ANSWERS,
    ANSWERS,
    NUMBER,
    MOST_SETTINGS,
    BYTES,
    0,
    // next CHANNEL NOW ROOM
    NEXT,
    3,
    NUMBER,
    HIGHEST_ID,
    NUMBER,
    u64::MAX,
    NUMBER,
    MOST_ROOM,
    // withdraw CHANNEL
    WITHDRAW,
    1,
    NUMBER,
    HIGHEST_ID,
    // radio NOW HEX
    RADIO,
    2,
    NUMBER,
    u64::MAX,
    BYTES,
    0,
    // pace NOW
    PACE,
    1,
    NUMBER,
    u64::MAX,
    // query ROOM
    QUERY,
    1,
    NUMBER,
    MOST_ROOM,
    // show CHANNEL
    SHOW,
    1,
    NUMBER,
    HIGHEST_ID,
    // store CHANNEL
    STORE,
    1,
    NUMBER,
    HIGHEST_ID,
    // kept
    KEPT,
    0,
    // pacer
    PACER,
    0,
];
