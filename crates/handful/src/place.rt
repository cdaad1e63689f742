// Where a channel's words and its store stand. Number 19 was tested.
ghost use Rattle.std.specs.Prelude.{◌≡◌, true};
ghost use Rattle.ips_state.specs.Limits.{state_fits, sizes};
ghost use Rattle.ips_words.specs.Words.{state_in};
ghost use Rattle.ips_words_survey.specs.Places.{place_of};

use ips_words::layout::{COUNT_WORD, HEAD, ID, SIZE, SLOT};
use ips_words::waiting;
use ips_words_survey::place::Found;
use quantity::refusal;

// The first channel of the ID, or 12: each store before it is passed over.
pub(crate) fn locate(words: &[u64], id: u8) -> Result<Found, u8>
    requires { state_fits (state_in words.now) ≡ true }
    ensures { result ≡ place_of (state_in words.now) id (sizes (state_in words.now).channels) }
{
    let count = waiting::narrow(words[COUNT_WORD]);
    let mut start: usize = 0;
    for index in 0..count {
        let from = HEAD + SLOT * index;
        if waiting::narrow(words[from + ID]) == usize::from(id) {
            return Ok(Found { index, start });
        }
        start += waiting::narrow(words[from + SIZE]);
    }
    Err(refusal::NO_CHANNEL)
}
