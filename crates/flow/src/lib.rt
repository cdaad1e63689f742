// How a channel counts: what may go by its flow state, and what it counts and carries then.
#![tactic(auto)]

ghost use Rattle.std.specs.Prelude.{◌≡◌, cond};
ghost use Rattle.flow.specs.Counting.{first_flow, may_go, sequence_on, carried_by, flow_after};

use meaning::message::Window;
use quantity::count;
use quantity::count::{ByteCount, FlowSequence, FlowWindow};

// One of: free; no window; a window in force. An enum with the window in its third case is document 01's form.
#[derive(Clone, Copy)]
pub enum Flow {
    Free,
    NoWindow,
    InForce(FlowWindow),
}

// Plain channels are always free; fresh flow-controlled ones have no window.
pub fn first(controlled: bool) -> Flow
    ensures { result ≡ first_flow controlled }
{
    if controlled {
        Flow::NoWindow
    } else {
        Flow::Free
    }
}

// Whether a packet of this length may go.
pub fn may_go(flow: Flow, sequence: FlowSequence, bytes: ByteCount) -> bool
    ensures { result ≡ may_go flow sequence bytes }
{
    match flow {
        Flow::Free => true,
        Flow::NoWindow => false,
        Flow::InForce(window) => count::fits(sequence, window, bytes),
    }
}

// The sequence after a packet of this length went: a free channel's stands still.
pub fn counted(flow: Flow, sequence: FlowSequence, bytes: ByteCount) -> FlowSequence
    ensures { result ≡ sequence_on flow sequence bytes }
{
    match flow {
        Flow::Free => sequence,
        Flow::NoWindow => sequence,
        Flow::InForce(_) => count::advance(sequence, bytes),
    }
}

// The Flow Sequence of the message: only if a window is in force.
pub fn carried(flow: Flow, sequence: FlowSequence) -> Option<FlowSequence>
    ensures { result ≡ carried_by flow sequence }
{
    match flow {
        Flow::Free => None,
        Flow::NoWindow => None,
        Flow::InForce(_) => Some(sequence),
    }
}

// The flow state that a Flow Window option leaves, or its absence: the old one plays no part.
fn stated(window: Option<Window>) -> Flow
    ensures { result ≡ flow_after window }
{
    match window {
        None => Flow::Free,
        Some(Window::Empty) => Flow::NoWindow,
        Some(Window::Given(number)) => Flow::InForce(number),
    }
}

// The flow state after an accepted radio control message: a plain channel's stays free.
pub fn heard(controlled: bool, before: Flow, window: Option<Window>) -> Flow
    ensures { result ≡ cond controlled (flow_after window) before }
{
    if controlled { stated(window) } else { before }
}
