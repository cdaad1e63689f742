// The bytes of a `context` line as the Context that the radio tells.
ghost use Rattle.std.specs.Prelude.{◌≡◌, cond, leb, length};
ghost use Rattle.quantity.specs.Limits.{LONGEST-NAME};
ghost use Rattle.wire.specs.Numbers.{big_endian};
ghost use Rattle.station_read.specs.Lines.{context_said};

use meaning::message::ContextBytes;
use quantity::limit::LONGEST_NAME;

// The number that the bytes spell. Of too many bytes only their length counts, which is refused.
fn spelt(bytes: &[u8]) -> u64
    ensures { result ≡ cond (leb (length bytes.now) LONGEST-NAME) (big_endian bytes.now) 0 }
{
    if bytes.len() <= LONGEST_NAME {
        return wire::number::read(bytes);
    }
    0
}

// No byte is no Context.
pub fn context_said(bytes: &[u8]) -> Option<(ContextBytes, usize)>
    ensures { result ≡ context_said bytes.now }
{
    if bytes.len() == 0 {
        return None;
    }
    Some((ContextBytes(spelt(bytes)), bytes.len()))
}
