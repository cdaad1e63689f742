// Writing a data message.
ghost use Rattle.std.specs.Prelude.{◌≡◌, ◌≤◌, ◌<◌, ◌^◌, length};
ghost use Rattle.wire.specs.Options.{Laid};
ghost use Rattle.writable.specs.Allowed.{data_allowed};
ghost use Rattle.writer.specs.Written.{data_written, Outcome};

use crate::answer;
use meaning::message::{Data, End};
use quantity::count::ByteCount;
use quantity::refusal;
use quantity::refusal::Refusal;
use wire::option::FRAME_SIZE;
use write_option::{option, size};

// Version 1, the data plane.
const HEADER: u8 = 24;

// The message's length: nothing is written before it is known to fit.
fn size(message: Data, packet: &[u8]) -> usize
    requires { length packet.now < 2 ^ 16 }
    ensures { result ≡ length (data_written message packet.now) }
{
    let datalink = message.datalink;
    let sequence = message.sequence;
    let channel = message.channel;
    let expiration = message.expiration;
    1 + size::datalink(datalink)
        + size::counted(sequence)
        + size::channel(channel)
        + size::expiration(expiration)
        + FRAME_SIZE
        + packet.len()
}

// Each option is written into the rest of the output behind the one before.
fn lay(message: Data, packet: &[u8], out: &mut [u8]) -> usize
    requires packet_len_bound { length packet.now < 2 ^ 16 }
    requires packet_in_bounds { length (data_written message packet.now) ≤ length out.old }
    ensures { Laid (data_written message packet.now) out.old out.new result }
{
    let datalink = message.datalink;
    let sequence = message.sequence;
    let channel = message.channel;
    let expiration = message.expiration;
    out[0] = HEADER;
    let mut at: usize = 1;
    at = at + option::lay_datalink(&mut out[at..], datalink);
    at = at + option::lay_counted(&mut out[at..], sequence);
    at = at + option::lay_channel(&mut out[at..], channel);
    at = at + option::lay_expiration(&mut out[at..], expiration);
    at + option::lay_packet(&mut out[at..], packet)
}

// 20 and 18 are judged before a byte is touched.
pub fn write(end: End, message: Data, packet: &[u8], out: &mut [u8]) -> Result<ByteCount, Refusal>
    ensures { Outcome (data_allowed end message (length packet.now)) (data_written message packet.now) out.old result out.new }
{
    if !writable::data::may_write(end, message, packet.len()) {
        return answer::refused(refusal::NOT_WRITABLE);
    }
    if answer::no_room(size(message, packet), out.len()) {
        return answer::refused(refusal::NO_ROOM);
    }
    Ok(ByteCount(lay(message, packet, out)))
}
