// The writer of each option: where the message states it, it is laid down at the start of the rest of an output. Each gives its length.
ghost use Rattle.std.specs.Prelude.{◌∷◌, ◌<◌, ◌≤◌, ◌^◌, length};
ghost use Rattle.quantity.specs.Limits.{LONGEST-NAME};
ghost use Rattle.wire.specs.Numbers.{bytes_of};
ghost use Rattle.wire.specs.Options.{option, Laid};
ghost use Rattle.meaning.specs.Kinds.{PACKET-DATA};
ghost use Rattle.write_option.specs.Laying.{alone, size_of, ShortInstance, ShortContext};
ghost use Rattle.write_option.specs.Parts.{datalink_then, instance_then, context_then, status_then, sequence_then, window_then, counted_then, channel_then, expiration_then};

use meaning::kind;
use meaning::message::{ContextBytes, Window};
use quantity::count::{DatalinkId, FlowSequence, LinkInstanceId};
use quantity::limit::LONGEST_NAME;

// A Channel ID and a number of 32 bits.
const FLOW_SIZE: usize = 5;

// A number of `size` bytes.
fn lay_number(out: &mut [u8], kind: u8, size: usize, number: u64) -> usize
    requires size_bound { size ≤ LONGEST-NAME }
    requires number_in_bounds { size_of (option kind (bytes_of size number)) ≤ length out.old }
    ensures { Laid (alone (option kind (bytes_of size number))) out.old out.new result }
{
    let mut content = [0u8; LONGEST_NAME];
    wire::number::write(&mut content[0..size], number);
    wire::option::lay(out, kind, &content[0..size])
}

// A Channel ID and a number of 32 bits behind it.
fn lay_flow(out: &mut [u8], kind: u8, channel: u8, number: u32) -> usize
    requires { size_of (option kind (channel ∷ bytes_of 4 number)) ≤ length out.old }
    ensures { Laid (alone (option kind (channel ∷ bytes_of 4 number))) out.old out.new result }
{
    let mut content = [0u8; FLOW_SIZE];
    content[0] = channel;
    wire::number::write(&mut content[1..FLOW_SIZE], number as u64);
    wire::option::lay(out, kind, &content)
}

// Each option's writer lays it at the start of the rest of an output, if it is stated, and gives its length.
pub fn lay_datalink(out: &mut [u8], datalink: Option<DatalinkId>) -> usize
    requires { size_of (datalink_then datalink) ≤ length out.old }
    ensures { Laid (alone (datalink_then datalink)) out.old out.new result }
{
    match datalink {
        None => 0,
        Some(id) => wire::option::lay(out, kind::DATALINK_IDENTIFIER, &[id.0]),
    }
}

// Its number in as many bytes as its length says.
pub fn lay_instance(out: &mut [u8], instance: Option<(LinkInstanceId, usize)>) -> usize
    requires short_instance { ShortInstance instance }
    requires instance_in_bounds { size_of (instance_then instance) ≤ length out.old }
    ensures { Laid (alone (instance_then instance)) out.old out.new result }
{
    match instance {
        None => 0,
        Some((id, size)) => lay_number(out, kind::LINK_INSTANCE, size, id.0),
    }
}

// Its bytes, as the number that they spell.
pub fn lay_context(out: &mut [u8], context: Option<(ContextBytes, usize)>) -> usize
    requires short_context { ShortContext context }
    requires context_in_bounds { size_of (context_then context) ≤ length out.old }
    ensures { Laid (alone (context_then context)) out.old out.new result }
{
    match context {
        None => 0,
        Some((string, size)) => lay_number(out, kind::DATALINK_CONTEXT, size, string.0),
    }
}

// Channel ID, then the Status below four unused bits of 0.
pub fn lay_status(out: &mut [u8], channel: u8, status: Option<u8>) -> usize
    requires { size_of (status_then channel status) ≤ length out.old }
    ensures { Laid (alone (status_then channel status)) out.old out.new result }
{
    match status {
        None => 0,
        Some(code) => wire::option::lay(out, kind::CHANNEL_STATUS, &[channel, code]),
    }
}

// Channel ID, then 32 bits.
pub fn lay_sequence(out: &mut [u8], channel: u8, sequence: Option<FlowSequence>) -> usize
    requires { size_of (sequence_then channel sequence) ≤ length out.old }
    ensures { Laid (alone (sequence_then channel sequence)) out.old out.new result }
{
    match sequence {
        None => 0,
        Some(count) => lay_flow(out, kind::FLOW_SEQUENCE, channel, count.0),
    }
}

// Channel ID alone, or with the 32 bits of a window.
pub fn lay_window(out: &mut [u8], channel: u8, window: Option<Window>) -> usize
    requires { size_of (window_then channel window) ≤ length out.old }
    ensures { Laid (alone (window_then channel window)) out.old out.new result }
{
    match window {
        None => 0,
        Some(Window::Empty) => wire::option::lay(out, kind::FLOW_WINDOW, &[channel]),
        Some(Window::Given(limit)) => lay_flow(out, kind::FLOW_WINDOW, channel, limit.0),
    }
}

// A data message's Flow Sequence names its channel.
pub fn lay_counted(out: &mut [u8], counted: Option<(u8, FlowSequence)>) -> usize
    requires { size_of (counted_then counted) ≤ length out.old }
    ensures { Laid (alone (counted_then counted)) out.old out.new result }
{
    match counted {
        None => 0,
        Some((channel, count)) => lay_flow(out, kind::FLOW_SEQUENCE, channel, count.0),
    }
}

// One byte.
pub fn lay_channel(out: &mut [u8], channel: Option<u8>) -> usize
    requires { size_of (channel_then channel) ≤ length out.old }
    ensures { Laid (alone (channel_then channel)) out.old out.new result }
{
    match channel {
        None => 0,
        Some(id) => wire::option::lay(out, kind::CHANNEL_IDENTIFIER, &[id]),
    }
}

// 32 bits.
pub fn lay_expiration(out: &mut [u8], expiration: Option<u32>) -> usize
    requires { size_of (expiration_then expiration) ≤ length out.old }
    ensures { Laid (alone (expiration_then expiration)) out.old out.new result }
{
    match expiration {
        None => 0,
        Some(time) => lay_number(out, kind::EXPIRATION_TIME, 4, time as u64),
    }
}

// The packet's bytes, last of a message.
pub fn lay_packet(out: &mut [u8], packet: &[u8]) -> usize
    requires packet_len_bound { length packet.now < 2 ^ 16 }
    requires packet_in_bounds { size_of (option PACKET-DATA packet.now) ≤ length out.old }
    ensures { Laid (alone (option PACKET-DATA packet.now)) out.old out.new result }
{
    wire::option::lay(out, kind::PACKET_DATA, packet)
}
