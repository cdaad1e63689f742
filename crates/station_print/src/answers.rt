// The answers to a line, but for what is shown.
ghost use Rattle.std.specs.Prelude.{[], ◌∷◌, take};
ghost use Rattle.text.specs.Strings.{bytes_text};
ghost use Rattle.message_words.specs.Saying.{Says};
ghost use Rattle.station_print.specs.Answers.{BAD-LINE, STARTED, answer_texts};

use message_words::whole;
use quantity::refusal::Refusal;
use radio_end_state::answer::Answer;
use text::{put, put_bytes};

// The answer to a line that breaks the page.
pub fn bad_line(out: &mut [u8]) -> usize
    ensures { Says out.old 0 (BAD-LINE ∷ []) result out.new }
{
    put(out, 0, b"bad line")
}

// The answer to a `start` that isn't refused.
pub fn started(out: &mut [u8]) -> usize
    ensures { Says out.old 0 (STARTED ∷ []) result out.new }
{
    put(out, 0, b"started")
}

// A label and n bytes of a lent output; of an output that is too short, all of it is shown.
fn message(out: &mut [u8], label: &[u8], count: usize, lent: &[u8]) -> usize
    ensures { Says out.old 0 (label.now ∷ (bytes_text (take count lent.now) ∷ [])) result out.new }
{
    let behind = put(out, 0, label);
    if count <= lent.len() {
        return put_bytes(out, behind, &lent[0..count]);
    }
    put_bytes(out, behind, lent)
}

// What a call came to: a message, which stands at the start of the lent output, behind a word; a word where there is none; a refusal.
pub fn answered(
    out: &mut [u8],
    answer: Result<Answer, Refusal>,
    lent: &[u8],
    asked: &[u8],
    quiet: &[u8],
) -> usize
    ensures { Says out.old 0 (answer_texts asked.now quiet.now answer lent.now) result out.new }
{
    match answer {
        Ok(Answer::Answered(count)) => message(out, asked, count.0, lent),
        Ok(Answer::Unasked(count)) => message(out, b"unasked ", count.0, lent),
        Ok(Answer::Quiet) => put(out, 0, quiet),
        Err(refusal) => whole::refused(out, 0, refusal),
    }
}
