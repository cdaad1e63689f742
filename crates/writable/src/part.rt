// Each part of a meaning by itself: what its message may hold, and the lengths and values of section 3.
ghost use Rattle.std.specs.Prelude.{◌≡◌, ◌&&◌, ◌^◌, leb, ltb};
ghost use Rattle.quantity.specs.Limits.{SHORTEST-NAME, LONGEST-NAME};
ghost use Rattle.writable.specs.Allowed.{may, datalink_allowed, instance_allowed, context_allowed, status_allowed, sequence_allowed, window_allowed, counted_allowed, channel_allowed, expiration_allowed};

use meaning::kind;
use meaning::message::{ContextBytes, End, Plane, Window};
use quantity::count::{DatalinkId, FlowSequence, LinkInstanceId};
use quantity::limit::{HIGHEST_STATUS, LONGEST_NAME, RESERVED_CHANNEL, SHORTEST_NAME};

// Whether a number is not too big for its length: eight bytes hold any, fewer only what has no bit beyond them.
fn fits(number: u64, size: usize) -> bool
    ensures { result ≡ ltb number (256 ^ size) }
{
    size >= 8 || number >> (8 * size as u32) == 0
}

// Link Instance and Datalink Context, as the number that their bytes spell.
fn instance_or_context(end: End, kind: u8, number: u64, size: usize) -> bool
    ensures { result ≡ (may Plane.Control end kind && (leb SHORTEST-NAME size && (leb size LONGEST-NAME && ltb number (256 ^ size)))) }
{
    kind::may_hold(Plane::Control, end, kind)
        && SHORTEST_NAME <= size
        && size <= LONGEST_NAME
        && fits(number, size)
}

// A Datalink Identifier has to be stated.
pub fn datalink(datalink: Option<DatalinkId>) -> bool
    ensures { result ≡ datalink_allowed datalink }
{
    datalink.is_some()
}

// A Link Instance has a listed length, and its number fits it.
#[tactic(auto, unfolding(meaning::specs::Kinds::length_listed))]
pub fn instance(end: End, instance: Option<(LinkInstanceId, usize)>) -> bool
    ensures { result ≡ instance_allowed end instance }
{
    instance.is_none_or(|(id, size)| instance_or_context(end, kind::LINK_INSTANCE, id.0, size))
}

// A Context likewise.
#[tactic(auto, unfolding(meaning::specs::Kinds::length_listed))]
pub fn context(end: End, context: Option<(ContextBytes, usize)>) -> bool
    ensures { result ≡ context_allowed end context }
{
    context.is_none_or(|(string, size)| instance_or_context(
        end,
        kind::DATALINK_CONTEXT,
        string.0,
        size,
    ))
}

// A status of at most 15.
pub fn status(end: End, status: Option<u8>) -> bool
    ensures { result ≡ status_allowed end status }
{
    status.is_none_or(|status| kind::may_hold(Plane::Control, end, kind::CHANNEL_STATUS)
        && status <= HIGHEST_STATUS)
}

// A Flow Sequence, where this end may state one.
pub fn sequence(end: End, sequence: Option<FlowSequence>) -> bool
    ensures { result ≡ sequence_allowed end sequence }
{
    sequence.is_none_or(|_| kind::may_hold(Plane::Control, end, kind::FLOW_SEQUENCE))
}

// A Flow Window, empty or not, where this end may state one.
pub fn window(end: End, window: Option<Window>) -> bool
    ensures { result ≡ window_allowed end window }
{
    window.is_none_or(|_| kind::may_hold(Plane::Control, end, kind::FLOW_WINDOW))
}

// A data message's Flow Sequence is of the channel that the message names.
pub fn counted(end: End, counted: Option<(u8, FlowSequence)>, channel: Option<u8>) -> bool
    ensures { result ≡ counted_allowed end counted channel }
{
    match counted {
        None => true,
        Some((id, _)) => channel.is_some_and(|named| kind::may_hold(
            Plane::Data,
            end,
            kind::FLOW_SEQUENCE,
        ) && id == named),
    }
}

// A Channel Identifier other than 255.
pub fn channel(end: End, channel: Option<u8>) -> bool
    ensures { result ≡ channel_allowed end channel }
{
    channel.is_none_or(|id| kind::may_hold(Plane::Data, end, kind::CHANNEL_IDENTIFIER)
        && id < RESERVED_CHANNEL)
}

// An Expiration Time other than 0.
pub fn expiration(end: End, expiration: Option<u32>) -> bool
    ensures { result ≡ expiration_allowed end expiration }
{
    expiration.is_none_or(|time| kind::may_hold(Plane::Data, end, kind::EXPIRATION_TIME)
        && time != 0)
}
