// What a call of the radio's end answers, and the test for a change of the Context.
ghost use Rattle.std.specs.Prelude.{◌≡◌};
ghost use Rattle.radio_end_state.specs.Message.{same_context};

use meaning::message::ContextBytes;
use quantity::count::ByteCount;
use quantity::refusal::Refusal;

// A message of so many bytes, as the answer to what was asked or unasked; nothing to write; a refusal.
#[derive(Clone, Copy)]
pub enum Answer {
    Answered(ByteCount),
    Unasked(ByteCount),
    Quiet,
}

// Whether two Contexts are the same in length and bytes, or neither is there.
pub fn same_context(
    first: Option<(ContextBytes, usize)>,
    second: Option<(ContextBytes, usize)>,
) -> bool
    ensures { result ≡ same_context first second }
{
    match (first, second) {
        (None, None) => true,
        (Some((bytes, length)), Some((other_bytes, other_length))) => {
            bytes.0 == other_bytes.0 && length == other_length
        }
        _ => false,
    }
}
