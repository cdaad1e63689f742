// One function an answer.
ghost use Rattle.std.specs.Prelude.{[], ◌∷◌, take};
ghost use Rattle.text.specs.Strings.{bytes_text};
ghost use Rattle.message_words.specs.Saying.{Says};
ghost use Rattle.session_print.specs.Answers.{start_texts, offer_texts, next_texts, withdraw_texts, radio_texts, pace_texts, query_texts};

use ips_channel_calls::asking::NextAnswer;
use ips_radio::RadioAnswer;
use message_words::whole;
use pacer::PaceAnswer;
use quantity::count::ByteCount;
use quantity::refusal::Refusal;
use text::{put, put_bytes};

// The answer to `start`.
pub fn started(out: &mut [u8], at: usize, answer: Result<(), Refusal>) -> usize
    ensures { Says out.old at (start_texts answer) result out.new }
{
    match answer {
        Ok(()) => put(out, at, b"started"),
        Err(refusal) => whole::refused(out, at, refusal),
    }
}

// The answer to `offer`.
pub fn offered(out: &mut [u8], at: usize, answer: Result<(), Refusal>) -> usize
    ensures { Says out.old at (offer_texts answer) result out.new }
{
    match answer {
        Ok(()) => put(out, at, b"taken"),
        Err(refusal) => whole::refused(out, at, refusal),
    }
}

// The message stands at the start of the lent output; of an output that is too short, all of it is shown.
pub fn asked(out: &mut [u8], at: usize, answer: Result<NextAnswer, Refusal>, lent: &[u8]) -> usize
    ensures { Says out.old at (next_texts answer lent.now) result out.new }
{
    match answer {
        Ok(NextAnswer::Sent(count)) => message(out, at, b"sent ", count.0, lent),
        Ok(NextAnswer::NothingWaiting) => put(out, at, b"nothing waiting"),
        Ok(NextAnswer::NotOperational) => put(out, at, b"not operational"),
        Ok(NextAnswer::WindowShut) => put(out, at, b"window shut"),
        Err(refusal) => whole::refused(out, at, refusal),
    }
}

// A label and n bytes of a lent output.
fn message(out: &mut [u8], at: usize, label: &[u8], count: usize, lent: &[u8]) -> usize
    ensures { Says out.old at (label.now ∷ (bytes_text (take count lent.now) ∷ [])) result out.new }
{
    let behind = put(out, at, label);
    if count <= lent.len() {
        return put_bytes(out, behind, &lent[0..count]);
    }
    put_bytes(out, behind, lent)
}

// The answer to `withdraw`.
pub fn emptied(out: &mut [u8], at: usize, answer: Result<(), Refusal>) -> usize
    ensures { Says out.old at (withdraw_texts answer) result out.new }
{
    match answer {
        Ok(()) => put(out, at, b"withdrawn"),
        Err(refusal) => whole::refused(out, at, refusal),
    }
}

// The answer to `radio`.
pub fn heard(out: &mut [u8], at: usize, answer: Result<RadioAnswer, Refusal>) -> usize
    ensures { Says out.old at (radio_texts answer) result out.new }
{
    match answer {
        Ok(RadioAnswer::Accepted) => put(out, at, b"accepted"),
        Ok(RadioAnswer::Due) => put(out, at, b"accepted due"),
        Err(refusal) => whole::refused(out, at, refusal),
    }
}

// The answer to `pace`.
pub fn paced(out: &mut [u8], at: usize, answer: Result<PaceAnswer, Refusal>) -> usize
    ensures { Says out.old at (pace_texts answer) result out.new }
{
    match answer {
        Ok(PaceAnswer::Quiet) => put(out, at, b"quiet"),
        Ok(PaceAnswer::Due) => put(out, at, b"due"),
        Ok(PaceAnswer::Silent) => put(out, at, b"silent"),
        Ok(PaceAnswer::DueSilent) => put(out, at, b"due silent"),
        Err(refusal) => whole::refused(out, at, refusal),
    }
}

// The answer to `query`, with the message that was written.
pub fn queried(out: &mut [u8], at: usize, answer: Result<ByteCount, Refusal>, lent: &[u8]) -> usize
    ensures { Says out.old at (query_texts answer lent.now) result out.new }
{
    match answer {
        Ok(count) => message(out, at, b"query ", count.0, lent),
        Err(refusal) => whole::refused(out, at, refusal),
    }
}
