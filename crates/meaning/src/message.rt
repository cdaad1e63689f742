// The meaning of a message: its plane (the struct), its end (beside it), its Datalink ID, and for each known kind and channel what is stated.
use quantity::count::{DatalinkId, FlowSequence, FlowWindow, LinkInstanceId};
use quantity::limit::CHANNEL_IDS;

// Whose message it is.
#[derive(Clone, Copy)]
pub enum End {
    Ips,
    Radio,
}

#[derive(Clone, Copy)]
pub enum Plane {
    Control,
    Data,
}

// A byte string of up to 8 bytes, as the number that they spell.
#[derive(Clone, Copy)]
pub struct ContextBytes(pub u64);

// A Flow Window option, without the field or with it.
#[derive(Clone, Copy)]
pub enum Window {
    Empty,
    Given(FlowWindow),
}

// A control message: the tables are over the Channel IDs.
#[derive(Clone, Copy)]
pub struct Control {
    pub datalink: Option<DatalinkId>,
    pub instance: Option<(LinkInstanceId, usize)>,
    pub context: Option<(ContextBytes, usize)>,
    pub statuses: [Option<u8>; CHANNEL_IDS],
    pub sequences: [Option<FlowSequence>; CHANNEL_IDS],
    pub windows: [Option<Window>; CHANNEL_IDS],
}

// A data message. Its packet stands beside it: a stretch of the datagram, or of whatever memory is to be written from.
#[derive(Clone, Copy)]
pub struct Data {
    pub datalink: Option<DatalinkId>,
    pub sequence: Option<(u8, FlowSequence)>,
    pub channel: Option<u8>,
    pub expiration: Option<u32>,
}
