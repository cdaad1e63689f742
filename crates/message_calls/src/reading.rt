// Reading a message into lent words: 19 for an end that there isn't or words of another length, then as the reader answers.
ghost use Rattle.message_calls.specs.Calls.{ReadsControl, ReadsData};

use crate::answer::{end_of, of_verdict, refused_by};
use answer_codes::Answer;
use lent_messages::layout::{CONTROL_WORDS, DATA_WORDS};
use quantity::count::DatalinkId;
use quantity::refusal::OUTSIDE_LIMITS;
use reader::answer::Verdict;
use reader::{control, data};

// Only an accepted message writes its meaning.
#[tactic(auto, unfolding(crate::specs::Calls::taken))]
pub fn read_control(datagram: &[u8], end: u8, datalink: u8, meaning: &mut [u64]) -> Answer
    ensures { ReadsControl datagram.now end datalink meaning.old result meaning.new }
{
    let Some(end) = end_of(end) else {
        return refused_by(OUTSIDE_LIMITS);
    };
    if meaning.len() != CONTROL_WORDS {
        return refused_by(OUTSIDE_LIMITS);
    }
    let reading = control::read(datagram, end, DatalinkId(datalink));
    if let Verdict::Accepted = reading.verdict {
        lent_messages::control::save(meaning, &reading.message);
    }
    of_verdict(reading.verdict)
}

// Only an accepted message writes its parts, with where its packet stands in the datagram: at its end.
#[tactic(auto, using(reader::proofs::Carried::carried_reading_lem, reader::proofs::Carried::carried_size, reader::proofs::Carried::carried_within), unfolding(crate::specs::Calls::taken))]
pub fn read_data(datagram: &[u8], end: u8, datalink: u8, parts: &mut [u64]) -> Answer
    ensures { ReadsData datagram.now end datalink parts.old result parts.new }
{
    let Some(end) = end_of(end) else {
        return refused_by(OUTSIDE_LIMITS);
    };
    if parts.len() != DATA_WORDS {
        return refused_by(OUTSIDE_LIMITS);
    }
    let carried = data::read_with_packet(datagram, end, DatalinkId(datalink));
    let reading = carried.reading;
    if let Verdict::Accepted = reading.verdict {
        let start = carried.start;
        lent_messages::data::save(parts, reading.message, start, datagram.len() - start);
    }
    of_verdict(reading.verdict)
}
