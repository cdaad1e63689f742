// The length of each part of a message as it is written: frame and content, or nothing where the part isn't stated.
ghost use Rattle.std.specs.Prelude.{◌≡◌, ◌+◌, ◌*◌, ◌≤◌};
ghost use Rattle.quantity.specs.Limits.{CHANNEL-IDS};
ghost use Rattle.write_option.specs.Laying.{ShortInstance, ShortContext};
ghost use Rattle.write_option.specs.Sizes.{LONGEST-OPTION, datalink_size, instance_size, context_size, status_size, sequence_size, window_size, counted_size, channel_size, expiration_size, statuses_size, sequences_size, windows_size};

use crate::size;
use meaning::message::{ContextBytes, Window};
use quantity::count::{DatalinkId, FlowSequence, LinkInstanceId};
use quantity::limit::CHANNEL_IDS;
use wire::option::FRAME_SIZE;

// How long each option is, frame and content; 0 where nothing is stated.
pub fn datalink(datalink: Option<DatalinkId>) -> usize
    ensures { (result ≡ datalink_size datalink) × (result ≤ LONGEST-OPTION) }
{
    match datalink {
        None => 0,
        Some(_) => FRAME_SIZE + 1,
    }
}

// By its own length.
pub fn instance(instance: Option<(LinkInstanceId, usize)>) -> usize
    requires { ShortInstance instance }
    ensures { (result ≡ instance_size instance) × (result ≤ LONGEST-OPTION) }
{
    match instance {
        None => 0,
        Some((_, size)) => FRAME_SIZE + size,
    }
}

// By its own length.
pub fn context(context: Option<(ContextBytes, usize)>) -> usize
    requires { ShortContext context }
    ensures { (result ≡ context_size context) × (result ≤ LONGEST-OPTION) }
{
    match context {
        None => 0,
        Some((_, size)) => FRAME_SIZE + size,
    }
}

fn status(status: Option<u8>) -> usize
    ensures { (result ≡ status_size status) × (result ≤ LONGEST-OPTION) }
{
    match status {
        None => 0,
        Some(_) => FRAME_SIZE + 2,
    }
}

fn sequence(sequence: Option<FlowSequence>) -> usize
    ensures { (result ≡ sequence_size sequence) × (result ≤ LONGEST-OPTION) }
{
    match sequence {
        None => 0,
        Some(_) => FRAME_SIZE + 5,
    }
}

fn window(window: Option<Window>) -> usize
    ensures { (result ≡ window_size window) × (result ≤ LONGEST-OPTION) }
{
    match window {
        None => 0,
        Some(Window::Empty) => FRAME_SIZE + 1,
        Some(Window::Given(_)) => FRAME_SIZE + 5,
    }
}

// A Channel ID and 32 bits.
pub fn counted(counted: Option<(u8, FlowSequence)>) -> usize
    ensures { (result ≡ counted_size counted) × (result ≤ LONGEST-OPTION) }
{
    match counted {
        None => 0,
        Some((_, _)) => FRAME_SIZE + 5,
    }
}

// One byte.
pub fn channel(channel: Option<u8>) -> usize
    ensures { (result ≡ channel_size channel) × (result ≤ LONGEST-OPTION) }
{
    match channel {
        None => 0,
        Some(_) => FRAME_SIZE + 1,
    }
}

// 32 bits.
pub fn expiration(expiration: Option<u32>) -> usize
    ensures { (result ≡ expiration_size expiration) × (result ≤ LONGEST-OPTION) }
{
    match expiration {
        None => 0,
        Some(_) => FRAME_SIZE + 4,
    }
}

// What the tables state of one channel.
fn cells(status: Option<u8>, sequence: Option<FlowSequence>, window: Option<Window>) -> usize
    ensures { (result ≡ status_size status + (sequence_size sequence + window_size window)) × (result ≤ 3 * LONGEST-OPTION) }
{
    size::status(status) + size::sequence(sequence) + size::window(window)
}

// The options of a control message's three tables together.
pub fn tables(
    statuses: [Option<u8>; CHANNEL_IDS],
    sequences: [Option<FlowSequence>; CHANNEL_IDS],
    windows: [Option<Window>; CHANNEL_IDS],
) -> usize
    ensures { (result ≡ statuses_size statuses + (sequences_size sequences + windows_size windows)) × (result ≤ 3 * LONGEST-OPTION * CHANNEL-IDS) }
{
    let mut total: usize = 0;
    for channel in 0..CHANNEL_IDS {
        total = total + cells(statuses[channel], sequences[channel], windows[channel]);
    }
    total
}
