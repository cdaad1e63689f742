// A data message, part by part.
ghost use Rattle.std.specs.Prelude.{◌≡◌};
ghost use Rattle.writable.specs.Allowed.{data_allowed};

use crate::part;
use meaning::message::{Data, End};

// A Length has 16 bits.
const LENGTHS: usize = 65536;

// Whether a data message may be written with a packet of this size.
#[tactic(auto, unfolding(crate::specs::Allowed::data_allowed))]
pub fn may_write(end: End, message: Data, size: usize) -> bool
    ensures { result ≡ data_allowed end message size }
{
    part::datalink(message.datalink)
        && part::counted(end, message.sequence, message.channel)
        && part::channel(end, message.channel)
        && part::expiration(end, message.expiration)
        && size < LENGTHS
}
