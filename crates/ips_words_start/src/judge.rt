// A configuration in words: the sum of its stores where it is within the limits.
ghost use Rattle.std.specs.Prelude.{◌≡◌, ◌≤◌, length};
ghost use Rattle.quantity.specs.Limits.{MOST-CHANNELS};
ghost use Rattle.ips_words_start.specs.Start.{configuration_length, start_fits_of, walked, judged_of};

use crate::layout::{
    CONFIGURATION_HEAD, CONFIGURATION_SLOT, CONFIGURED_CODES, CONFIGURED_COUNT,
    CONFIGURED_DATALINK, START_FIRST, START_ID, START_KIND, START_SIZE,
};
use ips_words::layout::{BYTE_VALUES, CONTROLLED, COUNT_VALUES};
use ips_words::waiting;
use quantity::count::ByteCount;
use quantity::limit::{CHANNEL_IDS, FEWEST_CHANNELS, LARGEST_STORE, MOST_CHANNELS, SMALLEST_STORE};

fn start_fits(id: usize, kind: u64, first: u64, size: usize) -> bool
    ensures { result ≡ start_fits_of id kind first size }
{
    kind <= CONTROLLED
        && (first < COUNT_VALUES
            && (id < CHANNEL_IDS && (SMALLEST_STORE <= size && size <= LARGEST_STORE)))
}

// The channels one after another: `seen` has the Channel IDs before.
fn walk(configuration: &[u64], count: usize) -> Option<ByteCount>
    requires { (length configuration.now ≡ configuration_length count) × (count ≤ MOST-CHANNELS) }
    ensures { result ≡ walked configuration.now count }
{
    let mut seen = [false; CHANNEL_IDS];
    let mut total: usize = 0;
    for at in 0..count {
        let from = CONFIGURATION_HEAD + CONFIGURATION_SLOT * at;
        let id = waiting::narrow(configuration[from + START_ID]);
        let size = waiting::narrow(configuration[from + START_SIZE]);
        if !start_fits(
            id,
            configuration[from + START_KIND],
            configuration[from + START_FIRST],
            size,
        ) {
            return None;
        }
        if seen[id] {
            return None;
        }
        seen[id] = true;
        total += size;
    }
    if !seen[0] {
        return None;
    }
    Some(ByteCount(total))
}

// The count is judged before it is multiplied. A configuration outside the limits has no stores.
pub fn judge(configuration: &[u64]) -> Option<ByteCount>
    ensures { result ≡ judged_of configuration.now }
{
    if configuration.len() < CONFIGURATION_HEAD {
        return None;
    }
    let count = waiting::narrow(configuration[CONFIGURED_COUNT]);
    if count < FEWEST_CHANNELS {
        return None;
    }
    if count > MOST_CHANNELS {
        return None;
    }
    if configuration.len() != CONFIGURATION_HEAD + CONFIGURATION_SLOT * count {
        return None;
    }
    if configuration[CONFIGURED_DATALINK] >= BYTE_VALUES {
        return None;
    }
    if configuration[CONFIGURED_CODES] >= BYTE_VALUES {
        return None;
    }
    walk(configuration, count)
}
