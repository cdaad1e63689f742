// Where a call finds its channel, or the refusal: 19, then 12.
ghost use Rattle.std.specs.Prelude.{◌≡◌};
ghost use Rattle.radio_end_words.specs.Words.{state_in};
ghost use Rattle.radio_end_telling.specs.Left.{found_of};

use crate::settle;
use quantity::refusal;
use quantity::refusal::Refusal;
use radio_end_survey::survey;
use radio_end_words::place;

pub fn find(words: &[u64], id: u8) -> Result<usize, Refusal>
    ensures { result ≡ found_of (state_in words.now) id }
{
    if !survey::fits(words) {
        return settle::refused(refusal::OUTSIDE_LIMITS);
    }
    let index = place::find(words, id);
    if index < place::count(words) {
        return Ok(index);
    }
    settle::refused(refusal::NO_CHANNEL)
}
