// What one option answers.
use meaning::message::{ContextBytes, Window};
use quantity::count::{DatalinkId, FlowSequence, LinkInstanceId};

// What one option states.
#[derive(Clone, Copy)]
pub enum Item {
    Skipped,
    Datalink(DatalinkId),
    Instance(LinkInstanceId, usize),
    Context(ContextBytes, usize),
    Status(u8, u8),
    Sequence(u8, FlowSequence),
    Window(u8, Option<Window>),
    Channel(u8),
    Expiration(u32),
    Packet,
}
