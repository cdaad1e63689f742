// Number 19 over one channel's words: compares on them, and nothing is loaded.
ghost use Rattle.std.specs.Prelude.{◌≡◌, ◌&&◌, length, leb, ltb};
ghost use Rattle.quantity.specs.Limits.{RESERVED-CHANNEL, MOST-ALLOWANCE};
ghost use Rattle.radio_end_state.specs.Limits.{highest_fits, channel_fits};
ghost use Rattle.radio_end_words.specs.Words.{SLOT, highest_of, highest_spelled, name_spelled, channel_in, spelled};

use lent_messages::layout::{ABSENT, GIVEN};
use quantity::limit::{HIGHEST_STATUS, MOST_ALLOWANCE, RESERVED_CHANNEL};
use radio_end_words::layout::{
    CONTROLLED, HEARD, HIGHEST_TAG, HIGHEST_VALUE, ID, KIND, STATUS, THROUGHPUT, UNHEARD, WATERMARK,
};

// Numbers of 32 bits are below this.
const COUNT_VALUES: u64 = 4294967296;

// Where nothing is said stand zeros.
fn highest_spelled(tag: u64, value: u64) -> bool
    ensures { result ≡ highest_spelled tag value }
{
    if tag == UNHEARD {
        return value == 0;
    }
    tag == HEARD
}

pub(crate) fn name_spelled(tag: u64, value: u64, size: u64) -> bool
    ensures { result ≡ name_spelled tag value size }
{
    if tag == ABSENT {
        return value == 0 && size == 0;
    }
    tag == GIVEN
}

fn is_spelled(part: &[u64]) -> bool
    requires { length part.now ≡ SLOT }
    ensures { result ≡ spelled part.now }
{
    part[KIND] <= CONTROLLED && highest_spelled(part[HIGHEST_TAG], part[HIGHEST_VALUE])
}

// A channel's ID, and 23 in a state.
fn setting_fits(id: u64, watermark: u64, throughput: u64) -> bool
    ensures { result ≡ (ltb id RESERVED-CHANNEL && (leb watermark MOST-ALLOWANCE && leb throughput MOST-ALLOWANCE)) }
{
    id < RESERVED_CHANNEL as u64
        && (watermark <= MOST_ALLOWANCE as u64 && throughput <= MOST_ALLOWANCE as u64)
}

fn highest_fits(tag: u64, value: u64) -> bool
    ensures { result ≡ highest_fits (highest_of tag value) }
{
    if tag == UNHEARD {
        return true;
    }
    value < COUNT_VALUES
}

// Whether the words say a channel within the limits.
pub(crate) fn channel_fits(part: &[u64]) -> bool
    requires { length part.now ≡ SLOT }
    ensures { result ≡ (spelled part.now && channel_fits (channel_in part.now)) }
{
    if !is_spelled(part) {
        return false;
    }
    if !setting_fits(part[ID], part[WATERMARK], part[THROUGHPUT]) {
        return false;
    }
    if part[STATUS] > HIGHEST_STATUS as u64 {
        return false;
    }
    highest_fits(part[HIGHEST_TAG], part[HIGHEST_VALUE])
}
