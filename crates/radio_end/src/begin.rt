// The words that a state asks for.
ghost use Rattle.std.specs.Prelude.{◌≡◌};
ghost use Rattle.radio_end.specs.Shown.{words_needed};

use quantity::limit::{FEWEST_CHANNELS, MOST_CHANNELS};
use radio_end_words::layout::{HEAD, SLOT};

// How many words a state of so many channels asks for; 0 where no state has so many.
pub fn words_for(channels: usize) -> usize
    ensures { result ≡ words_needed channels }
{
    if channels < FEWEST_CHANNELS {
        return 0;
    }
    if channels > MOST_CHANNELS {
        return 0;
    }
    HEAD + SLOT * channels
}
