// Whether a data message obeys, by what was seen of its channel before it.
#![tactic(auto)]

ghost use Rattle.std.specs.Prelude.{◌≡◌};
ghost use Rattle.conduct_rules.specs.Rules.{less_of, base_for, obeys_free, obeys_within, obeys_in_force, obeys_of};

pub mod kept;

use quantity::count;
use quantity::count::{ByteCount, FlowSequence, FlowWindow};

// What the latest accepted radio control message made of a channel.
#[derive(Clone, Copy)]
pub enum Flow {
    // There was none yet.
    Unseen,
    // It had no Flow Window option for the channel.
    Free,
    // It had one without the field.
    NoWindow,
    // It had one with this window.
    InForce(FlowWindow),
}

// A sequence less the bytes, modulo 2^32.
fn less(sequence: FlowSequence, bytes: ByteCount) -> FlowSequence
    ensures { result ≡ less_of sequence bytes }
{
    let low = (bytes.0 % 4294967296) as u32;
    FlowSequence(std::num::wrapping_sub_u32(sequence.0, low))
}

// What a packet is counted from: the last sequence carried; for the first, its own less its bytes.
fn base_for(last: Option<FlowSequence>, own: FlowSequence, bytes: ByteCount) -> FlowSequence
    ensures { result ≡ base_for last own bytes }
{
    last.unwrap_or(less(own, bytes))
}

// Under a window: the sequence after the packet, and a packet that fits.
#[tactic(auto, unfolding(crate::specs::Rules::obeys_within))]
fn obeys_within(window: FlowWindow, base: FlowSequence, bytes: ByteCount, own: FlowSequence) -> bool
    ensures { result ≡ obeys_within window base bytes own }
{
    let after = count::advance(base, bytes);
    own.0 == after.0 && count::fits(base, window, bytes)
}

fn obeys_in_force(
    window: FlowWindow,
    last: Option<FlowSequence>,
    bytes: ByteCount,
    carried: Option<FlowSequence>,
) -> bool
    ensures { result ≡ obeys_in_force window last bytes carried }
{
    carried.is_some_and(|own| obeys_within(window, base_for(last, own, bytes), bytes, own))
}

// On a free channel only a Flow Sequence is a breach.
fn obeys_free(carried: Option<FlowSequence>) -> bool
    ensures { result ≡ obeys_free carried }
{
    carried.is_none()
}

// A data message of so many bytes, by the flow of its channel, the last sequence carried there before, and its own.
pub fn obeys(
    flow: Flow,
    last: Option<FlowSequence>,
    bytes: ByteCount,
    carried: Option<FlowSequence>,
) -> bool
    ensures { result ≡ obeys_of flow last bytes carried }
{
    match flow {
        Flow::Unseen | Flow::NoWindow => false,
        Flow::Free => obeys_free(carried),
        Flow::InForce(window) => obeys_in_force(window, last, bytes, carried),
    }
}
