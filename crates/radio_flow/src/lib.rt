// One channel of the radio's end: the highest Flow Sequence heard, the bytes queued, and the window that is granted.
#![tactic(auto)]

ghost use Rattle.std.specs.Prelude.{◌≡◌, Some, None};
ghost use Rattle.radio_flow.specs.Granting.{later_of, heard_of, hearing, allowance_of, window_from, granted, window_of, queued_on, same_window};

use meaning::message::Window;
use quantity::count;
use quantity::count::{ByteCount, FlowSequence, FlowWindow};
use quantity::limit::MOST_ALLOWANCE;

// Of the highest and a further sequence the one that is ahead, by distance.
fn later(highest: FlowSequence, sequence: FlowSequence) -> Option<FlowSequence>
    ensures { result ≡ later_of highest sequence }
{
    if count::fits(highest, FlowWindow(sequence.0), ByteCount(1)) {
        Some(sequence)
    } else {
        Some(highest)
    }
}

fn hear(highest: Option<FlowSequence>, sequence: FlowSequence) -> Option<FlowSequence>
    ensures { result ≡ heard_of highest sequence }
{
    match highest {
        None => Some(sequence),
        Some(word) => later(word, sequence),
    }
}

// The highest after a message: a plain channel passes over a Flow Sequence.
pub fn heard(
    controlled: bool,
    highest: Option<FlowSequence>,
    stated: Option<FlowSequence>,
) -> Option<FlowSequence>
    ensures { result ≡ hearing controlled highest stated }
{
    if !controlled {
        return highest;
    }
    match stated {
        None => highest,
        Some(sequence) => hear(highest, sequence),
    }
}

// How far the window lies above the highest sequence.
pub fn allowance(watermark: ByteCount, throughput: ByteCount, queued: ByteCount) -> ByteCount
    ensures { result ≡ allowance_of watermark throughput queued }
{
    let above = watermark.0.saturating_sub(queued.0);
    let over = queued.0.saturating_sub(watermark.0);
    let rest = throughput.0.saturating_sub(over);
    ByteCount(above.saturating_add(rest).min(MOST_ALLOWANCE))
}

fn grant(highest: Option<FlowSequence>, allowance: ByteCount) -> Option<Window>
    ensures { result ≡ granted highest allowance }
{
    match highest {
        None => Some(Window::Empty),
        Some(sequence) => {
            let ahead = count::advance(sequence, allowance);
            Some(Window::Given(FlowWindow(ahead.0)))
        }
    }
}

// The Flow Window that the message states: none of a plain channel.
pub fn window(
    controlled: bool,
    highest: Option<FlowSequence>,
    allowance: ByteCount,
) -> Option<Window>
    ensures { result ≡ window_of controlled highest allowance }
{
    if !controlled {
        return None;
    }
    grant(highest, allowance)
}

// Bytes that are queued besides, held at the largest number.
pub fn queue(queued: ByteCount, bytes: ByteCount) -> ByteCount
    ensures { result ≡ queued_on queued bytes }
{
    ByteCount(queued.0.saturating_add(bytes.0))
}

// Whether two messages state the same Flow Window.
pub fn same(first: Option<Window>, second: Option<Window>) -> bool
    ensures { result ≡ same_window first second }
{
    match (first, second) {
        (None, None) => true,
        (Some(Window::Empty), Some(Window::Empty)) => true,
        (Some(Window::Given(number)), Some(Window::Given(other))) => number.0 == other.0,
        _ => false,
    }
}
