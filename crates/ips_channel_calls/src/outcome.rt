// What a call on a channel and its store comes to.
ghost use Rattle.std.specs.Prelude.{◌≡◌, Err};
ghost use Rattle.ips_channel_calls.specs.Calls.{refused_with};

use ips_channel::state::Channel;
use quantity::count::ByteCount;
use quantity::refusal::Refusal;

// The answer, the channel then, and how many bytes were moved within the store.
#[derive(Clone, Copy)]
pub struct CallOutcome<T> {
    pub answer: Result<T, Refusal>,
    pub channel: Channel,
    pub moved: ByteCount,
}

// A refusal leaves the channel as it is.
pub(crate) fn refused<T>(channel: Channel, number: u8) -> CallOutcome<T>
    ensures { result ≡ record { answer = Err (refused_with number); channel = channel; moved = record { 0 = 0 } } }
{
    CallOutcome {
        answer: Err(Refusal { number, place: 0 }),
        channel,
        moved: ByteCount(0),
    }
}
