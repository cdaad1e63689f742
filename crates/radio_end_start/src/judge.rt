// A configuration in words: number 19, then 23.
ghost use Rattle.std.specs.Prelude.{◌≡◌, ◌&&◌, ◌+◌, ◌≤◌, length, leb, ltb};
ghost use Rattle.quantity.specs.Limits.{RESERVED-CHANNEL, MOST-ALLOWANCE};
ghost use Rattle.radio_end_state.specs.Limits.{allowances_fit, configuration_fits};
ghost use Rattle.radio_end_words.specs.Words.{CONTROLLED};
ghost use Rattle.radio_end_start.specs.Start.{CONFIGURATION-SLOT, START-ID, START-KIND, START-WATERMARK, START-THROUGHPUT, configuration_length, start_word, settings_of, configuration_in, walked, Configured};

use crate::layout::{
    CONFIGURATION_HEAD, CONFIGURATION_SLOT, CONFIGURED_COUNT, CONFIGURED_DATALINK, START_ID,
    START_KIND, START_THROUGHPUT, START_WATERMARK,
};
use quantity::limit;
use quantity::limit::{FEWEST_CHANNELS, MOST_CHANNELS};
use radio_end_words::{layout, rows};

// A Datalink ID is a byte.
const BYTE_VALUES: u64 = 256;

// Whether the channel at an index has a kind that there is, and an ID that is not reserved.
fn setting_fits(configuration: &[u64], index: usize) -> bool
    requires { configuration_length index + CONFIGURATION-SLOT ≤ length configuration.now }
    ensures { result ≡ (leb (start_word configuration.now index START-KIND) CONTROLLED && ltb (start_word configuration.now index START-ID) RESERVED-CHANNEL) }
{
    let from = CONFIGURATION_HEAD + CONFIGURATION_SLOT * index;
    configuration[from + START_KIND] <= layout::CONTROLLED
        && configuration[from + START_ID] < limit::RESERVED_CHANNEL as u64
}

// The channels one after another, and each ID at its first place.
fn walk(configuration: &[u64], count: usize) -> bool
    requires { Configured configuration.now count }
    ensures { result ≡ walked configuration.now count }
{
    (0..count).all(|index| setting_fits(configuration, index))
        && rows::ids_fit::<CONFIGURATION_HEAD, CONFIGURATION_SLOT>(configuration, count)
}

// Number 19. The count is judged before it is multiplied.
pub fn fits(configuration: &[u64]) -> bool
    ensures { result ≡ configuration_fits (configuration_in configuration.now) }
{
    if configuration.len() < CONFIGURATION_HEAD {
        return false;
    }
    let count = configuration[CONFIGURED_COUNT] as usize;
    if count < FEWEST_CHANNELS {
        return false;
    }
    if count > MOST_CHANNELS {
        return false;
    }
    if configuration.len() != CONFIGURATION_HEAD + CONFIGURATION_SLOT * count {
        return false;
    }
    if configuration[CONFIGURED_DATALINK] >= BYTE_VALUES {
        return false;
    }
    walk(configuration, count)
}

// Whether watermark and throughput of the channel at an index are within the limit.
fn allowance_fits(configuration: &[u64], index: usize) -> bool
    requires { configuration_length index + CONFIGURATION-SLOT ≤ length configuration.now }
    ensures { result ≡ (leb (start_word configuration.now index START-WATERMARK) MOST-ALLOWANCE && leb (start_word configuration.now index START-THROUGHPUT) MOST-ALLOWANCE) }
{
    let from = CONFIGURATION_HEAD + CONFIGURATION_SLOT * index;
    configuration[from + START_WATERMARK] <= limit::MOST_ALLOWANCE as u64
        && configuration[from + START_THROUGHPUT] <= limit::MOST_ALLOWANCE as u64
}

// Number 23, of plain channels too.
pub fn allowances_fit(configuration: &[u64], count: usize) -> bool
    requires { Configured configuration.now count }
    ensures { result ≡ allowances_fit (settings_of configuration.now count) }
{
    (0..count).all(|index| allowance_fits(configuration, index))
}
