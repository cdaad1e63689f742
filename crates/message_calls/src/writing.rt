// Writing a message from lent words: 20 for an end that there isn't or words that say nothing, then as the writer answers.
ghost use Rattle.message_calls.specs.Calls.{WritesControl, WritesData};

use crate::answer::{end_of, refused_by};
use answer_codes::{Answer, of_write};
use quantity::refusal::NOT_WRITABLE;
use writer::{control, data};

#[tactic(auto, using(lent_messages::proofs::Saying::control_says), unfolding(crate::specs::Calls::control_may))]
pub fn write_control(end: u8, meaning: &[u64], out: &mut [u8]) -> Answer
    ensures { WritesControl end meaning.now out.old result out.new }
{
    let Some(end) = end_of(end) else {
        return refused_by(NOT_WRITABLE);
    };
    if !lent_messages::control::spelled(meaning) {
        return refused_by(NOT_WRITABLE);
    }
    of_write(control::write(end, lent_messages::control::load(meaning), out))
}

// Where a packet stood in a datagram is not asked: it is lent beside the words.
#[tactic(auto, using(lent_messages::proofs::Saying::data_says), unfolding(crate::specs::Calls::data_may))]
pub fn write_data(end: u8, parts: &[u64], packet: &[u8], out: &mut [u8]) -> Answer
    ensures { WritesData end parts.now packet.now out.old result out.new }
{
    let Some(end) = end_of(end) else {
        return refused_by(NOT_WRITABLE);
    };
    if !lent_messages::data::spelled(parts) {
        return refused_by(NOT_WRITABLE);
    }
    of_write(data::write(end, lent_messages::data::load(parts), packet, out))
}
