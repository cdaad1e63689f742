// The tables of a control message, by rising Channel ID.
ghost use Rattle.std.specs.Prelude.{◌≤◌, length};
ghost use Rattle.wire.specs.Options.{Laid};
ghost use Rattle.write_option.specs.Laying.{alone, size_of};
ghost use Rattle.write_option.specs.Parts.{statuses_then, sequences_then, windows_then};

use crate::option;
use meaning::message::Window;
use quantity::count::FlowSequence;
use quantity::limit::CHANNEL_IDS;

// Each lays a table's options down at the start of the rest of an output, every one in the rest behind the one before. Gives their length.
pub fn lay_statuses(out: &mut [u8], cells: [Option<u8>; CHANNEL_IDS]) -> usize
    requires { size_of (statuses_then cells) ≤ length out.old }
    ensures { Laid (alone (statuses_then cells)) out.old out.new result }
{
    let mut at: usize = 0;
    for channel in 0..CHANNEL_IDS {
        at = at + option::lay_status(&mut out[at..], channel as u8, cells[channel]);
    }
    at
}

// The Flow Sequences, likewise.
pub fn lay_sequences(out: &mut [u8], cells: [Option<FlowSequence>; CHANNEL_IDS]) -> usize
    requires { size_of (sequences_then cells) ≤ length out.old }
    ensures { Laid (alone (sequences_then cells)) out.old out.new result }
{
    let mut at: usize = 0;
    for channel in 0..CHANNEL_IDS {
        at = at + option::lay_sequence(&mut out[at..], channel as u8, cells[channel]);
    }
    at
}

// The Flow Windows, likewise.
pub fn lay_windows(out: &mut [u8], cells: [Option<Window>; CHANNEL_IDS]) -> usize
    requires { size_of (windows_then cells) ≤ length out.old }
    ensures { Laid (alone (windows_then cells)) out.old out.new result }
{
    let mut at: usize = 0;
    for channel in 0..CHANNEL_IDS {
        at = at + option::lay_window(&mut out[at..], channel as u8, cells[channel]);
    }
    at
}
