// The option frame: a type, a length of 16 bits, the content.
ghost use Rattle.std.specs.Prelude.{◌≡◌, ◌+◌, ◌≤◌, ◌<◌, ◌^◌, length};
ghost use Rattle.wire.specs.Options.{frame_of, option_bytes, Laid};

use crate::number;

// The type is one byte.
const LENGTH_AT: usize = 1;

// Type and length.
pub const FRAME_SIZE: usize = 3;

// The option that stands first in the rest of a body, if it is whole.
pub fn first(rest: &[u8]) -> Option<(u8, usize)>
    ensures { result ≡ frame_of rest.now }
{
    if rest.len() < FRAME_SIZE {
        return None;
    }
    let size = number::read(&rest[LENGTH_AT..FRAME_SIZE]) as usize;
    if rest.len() - FRAME_SIZE < size {
        return None;
    }
    Some((rest[0], size))
}

// Lays an option down at the start of the rest of an output. Gives its length, frame and content.
pub fn lay(out: &mut [u8], kind: u8, content: &[u8]) -> usize
    requires content_len_bound { length content.now < 2 ^ 16 }
    requires content_in_bounds { 3 + length content.now ≤ length out.old }
    ensures { Laid (option_bytes kind content.now) out.old out.new result }
{
    let size = content.len();
    out[0] = kind;
    number::write(&mut out[LENGTH_AT..FRAME_SIZE], size as u64);
    octets::copy(content, &mut out[FRAME_SIZE..]);
    FRAME_SIZE + size
}
