// A control message, part by part.
ghost use Rattle.std.specs.Prelude.{◌≡◌, ◌&&◌};
ghost use Rattle.std.specs.List.{list_all};
ghost use Rattle.writable.specs.Allowed.{status_allowed, primary_allowed, sequence_allowed, window_allowed, control_allowed};

use crate::part;
use meaning::message::{Control, End, Window};
use quantity::count::FlowSequence;
use quantity::limit::CHANNEL_IDS;

fn statuses(end: End, cells: &[Option<u8>]) -> bool
    ensures { result ≡ list_all (status_allowed end) cells.now }
{
    cells.iter().all(|cell| part::status(end, *cell))
}

fn sequences(end: End, cells: &[Option<FlowSequence>]) -> bool
    ensures { result ≡ list_all (sequence_allowed end) cells.now }
{
    cells.iter().all(|cell| part::sequence(end, *cell))
}

fn windows(end: End, cells: &[Option<Window>]) -> bool
    ensures { result ≡ list_all (window_allowed end) cells.now }
{
    cells.iter().all(|cell| part::window(end, *cell))
}

// The radio states a status of channel 0.
fn primary(end: End, statuses: [Option<u8>; CHANNEL_IDS]) -> bool
    ensures { result ≡ primary_allowed end statuses }
{
    match end {
        End::Ips => true,
        End::Radio => statuses[0].is_some(),
    }
}

// Number 20 for a control message: whether its meaning may be written by this end.
pub fn may_write(end: End, message: Control) -> bool
    ensures { result ≡ control_allowed end message }
{
    part::datalink(message.datalink)
        && part::instance(end, message.instance)
        && part::context(end, message.context)
        && statuses(end, &message.statuses)
        && primary(end, message.statuses)
        && sequences(end, &message.sequences)
        && windows(end, &message.windows)
}
