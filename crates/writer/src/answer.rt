// What a writer answers.
ghost use Rattle.std.specs.Prelude.{◌≡◌, Err};
ghost use Rattle.writer.specs.Written.{no_room_of};

use quantity::count::ByteCount;
use quantity::limit::LONGEST_DATAGRAM;
use quantity::refusal::Refusal;

// Number 18: the output is shorter than the message, or the message is longer than a datagram may be.
pub fn no_room(size: usize, room: usize) -> bool
    ensures { result ≡ no_room_of size room }
{
    room < size || LONGEST_DATAGRAM < size
}

// A writer's refusals have place 0.
pub fn refused(number: u8) -> Result<ByteCount, Refusal>
    ensures { result ≡ Err (record { number = number; place = 0 }) }
{
    Err(Refusal { number, place: 0 })
}
