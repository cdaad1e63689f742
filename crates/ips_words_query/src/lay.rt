// The query's bytes.
ghost use Rattle.std.specs.Prelude.{◌≤◌, ◌<◌, ◌≡◌, length};
ghost use Rattle.quantity.specs.Limits.{MOST-CHANNELS};
ghost use Rattle.wire.specs.Options.{Laid, option};
ghost use Rattle.wire.specs.Numbers.{bytes_of};
ghost use Rattle.meaning.specs.Kinds.{FLOW-SEQUENCE};
ghost use Rattle.write_option.specs.Laying.{alone, size_of};
ghost use Rattle.ips_words_query.specs.Rising.{CONTENT-SIZE, CONTENT-VALUES, RisingContents, query_size, contents_then, query_written};

use meaning::kind::FLOW_SEQUENCE;
use quantity::count::DatalinkId;
use wire::option::FRAME_SIZE;
use write_option::option;
use writer::control::HEADER;

// A Flow Sequence's content: a Channel ID and 4 bytes.
const CONTENT_SIZE: usize = 5;

// A Flow Sequence as it is written.
const SEQUENCE_SIZE: usize = FRAME_SIZE + CONTENT_SIZE;

// The header, and the Datalink Identifier with its frame.
const BEFORE_SEQUENCES: usize = 1 + FRAME_SIZE + 1;

// Numbers of 16 and of 40 bits are below these.
const LENGTH_VALUES: u64 = 65536;

const CONTENT_VALUES: u64 = 1099511627776;

// Type and length, above the bytes of the content.
const SEQUENCE_FRAME: u64 = (FLOW_SEQUENCE as u64 * LENGTH_VALUES + CONTENT_SIZE as u64)
    * CONTENT_VALUES;

// The message's length by the number of its Flow Sequences.
pub(crate) fn size(count: usize) -> usize
    requires { count ≤ MOST-CHANNELS }
    ensures { result ≡ query_size count }
{
    BEFORE_SEQUENCES + SEQUENCE_SIZE * count
}

// One Flow Sequence, as one number of 8 bytes.
fn lay_sequence(out: &mut [u8], content: u64) -> usize
    requires content_bound { content < CONTENT-VALUES }
    requires content_in_bounds { size_of (option FLOW-SEQUENCE (bytes_of CONTENT-SIZE content)) ≤ length out.old }
    ensures { Laid (alone (option FLOW-SEQUENCE (bytes_of CONTENT-SIZE content))) out.old out.new result }
{
    wire::number::write(&mut out[0..SEQUENCE_SIZE], SEQUENCE_FRAME + content);
    SEQUENCE_SIZE
}

// Every Flow Sequence in the rest of the output behind the one before. Gives their length.
fn lay_sequences(out: &mut [u8], contents: &[u64]) -> usize
    requires rising_contents { RisingContents contents.now }
    requires contents_in_bounds { size_of (contents_then contents.now) ≤ length out.old }
    ensures { Laid (alone (contents_then contents.now)) out.old out.new result }
{
    let mut at: usize = 0;
    for content in contents {
        at += lay_sequence(&mut out[at..], *content);
    }
    at
}

// Header, Datalink Identifier, Flow Sequences.
pub(crate) fn lay(out: &mut [u8], datalink: DatalinkId, contents: &[u64]) -> usize
    requires rising_contents { RisingContents contents.now }
    requires contents_in_bounds { length (query_written datalink.0 contents.now) ≤ length out.old }
    ensures { Laid (query_written datalink.0 contents.now) out.old out.new result }
{
    out[0] = HEADER;
    let mut at: usize = 1;
    at = at + option::lay_datalink(&mut out[at..], Some(datalink));
    at = at + lay_sequences(&mut out[at..], contents);
    at
}
