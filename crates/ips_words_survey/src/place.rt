// Where a call finds its channel and its store, or the refusal: 19, then 12.
ghost use Rattle.std.specs.Prelude.{◌≡◌};
ghost use Rattle.ips_words.specs.Words.{state_in};
ghost use Rattle.ips_words_survey.specs.Places.{place_of};

use crate::survey;
use ips_words::layout::COUNT_WORD;
use ips_words::waiting;
use quantity::refusal;

// A channel's index in the configuration, and where its store starts in the memory.
#[derive(Clone, Copy)]
pub struct Found {
    pub index: usize,
    pub start: usize,
}

// The place of a channel's words and store, where the memory has this length.
pub fn find(words: &[u64], id: u8, size: usize) -> Result<Found, u8>
    ensures { result ≡ place_of (state_in words.now) id size }
{
    let Some(survey) = survey::survey_words(words, id) else {
        return Err(refusal::OUTSIDE_LIMITS);
    };
    if survey.total.0 != size {
        return Err(refusal::OUTSIDE_LIMITS);
    }
    if survey.index == waiting::narrow(words[COUNT_WORD]) {
        return Err(refusal::NO_CHANNEL);
    }
    Ok(Found {
        index: survey.index,
        start: survey.start.0,
    })
}
