// A fresh start, and the words that it asks for.
ghost use Rattle.std.specs.Prelude.{◌≡◌};
ghost use Rattle.ips_words_start.specs.Start.{StartedIn};
ghost use Rattle.endpoint.specs.Shown.{words_needed};

use ips_words::layout::{HEAD, SLOT};
use quantity::limit::{FEWEST_CHANNELS, MOST_CHANNELS};
use quantity::refusal::Refusal;

// What a state of the most channels asks for.
pub const MOST_WORDS: usize = HEAD + SLOT * MOST_CHANNELS;

// How many words a state of so many channels asks for; 0 where no state has so many.
pub fn words_for(channels: usize) -> usize
    ensures { result ≡ words_needed channels }
{
    if channels < FEWEST_CHANNELS {
        return 0;
    }
    if channels > MOST_CHANNELS {
        return 0;
    }
    HEAD + SLOT * channels
}

// Judges the configuration, the words and the memory (19, then 22), and fills each store with zeros.
pub fn start(words: &mut [u64], memory: &mut [u8], configuration: &[u64]) -> Result<(), Refusal>
    ensures { StartedIn configuration.now words.old memory.old result words.new memory.new }
{
    ips_words_start::begin(words, memory, configuration)
}
