// What is kept of a channel while a capture is judged, as words of 64 bits: its flow, its base and its first breach.
ghost use Rattle.std.specs.Prelude.{◌≡◌};
ghost use Rattle.conduct_rules.specs.Kept.{flow_word, flow_in, base_after, base_in, breach_after};

use crate::Flow;
use meaning::message::Window;
use quantity::count::{FlowSequence, FlowWindow};

// Words of a flow; from IN_FORCE on it is the window that many higher.
const UNSEEN: u64 = 0;

const FREE: u64 = 1;

const NO_WINDOW: u64 = 2;

const IN_FORCE: u64 = 3;

// Numbers of 32 bits are below this.
const COUNT_VALUES: u64 = 4294967296;

pub fn flow_word(window: Option<Window>) -> u64
    ensures { result ≡ flow_word window }
{
    match window {
        None => FREE,
        Some(Window::Empty) => NO_WINDOW,
        Some(Window::Given(given)) => IN_FORCE + given.0 as u64,
    }
}

#[tactic(auto, unfolding(crate::specs::Kept::flow_in))]
pub fn flow_in(number: u64) -> Flow
    ensures { result ≡ flow_in number }
{
    match number {
        UNSEEN => Flow::Unseen,
        FREE => Flow::Free,
        NO_WINDOW => Flow::NoWindow,
        _ => Flow::InForce(FlowWindow(((number - IN_FORCE) % COUNT_VALUES) as u32)),
    }
}

// A message without a Flow Sequence leaves the base.
pub fn base_after(number: u64, carried: Option<FlowSequence>) -> u64
    ensures { result ≡ base_after number carried }
{
    carried.map_or(number, |sequence| 1 + sequence.0 as u64)
}

#[tactic(auto, unfolding(crate::specs::Kept::base_in))]
pub fn base_in(number: u64) -> Option<FlowSequence>
    ensures { result ≡ base_in number }
{
    if number == 0 {
        return None;
    }
    Some(FlowSequence(((number - 1) % COUNT_VALUES) as u32))
}

// A breach stands, whatever follows.
pub fn breach_after(breach: u64, number: u64, obeyed: bool) -> u64
    ensures { result ≡ breach_after breach number obeyed }
{
    if breach != 0 {
        return breach;
    }
    if obeyed {
        return 0;
    }
    number
}
