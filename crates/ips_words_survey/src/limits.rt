// Number 19 over one channel's words: compares on them, and nothing is loaded.
ghost use Rattle.std.specs.Prelude.{◌≡◌, ◌&&◌, length, leb, ltb};
ghost use Rattle.quantity.specs.Limits.{RESERVED-CHANNEL, SMALLEST-STORE, LARGEST-STORE};
ghost use Rattle.meaning.specs.declared.message.End.TheVariants as ends;
ghost use Rattle.writable.specs.Allowed.{status_allowed};
ghost use Rattle.store.specs.Waiting.{well_formed};
ghost use Rattle.ips_state.specs.Limits.{channel_fits};
ghost use Rattle.ips_words.specs.Words.{SLOT, status_of, queue_in, channel_in, spelled};
ghost use Rattle.ips_words_survey.specs.Survey.{plain_free};

use ips_words::layout::{
    ABSENT, BYTE_VALUES, CONTROLLED, COUNT_VALUES, ENTRY, FIXED, FLOW_TAG, FLOW_WINDOW, FREE,
    GIVEN, ID, IN_FORCE, KIND, SEQUENCE, SIZE, STATUS_TAG, STATUS_VALUE, WAITING,
};
use ips_words::waiting;
use quantity::limit::{
    HIGHEST_STATUS, LARGEST_STORE, LONGEST_PACKET, MOST_WAITING, RESERVED_CHANNEL, SHORTEST_PACKET,
    SMALLEST_STORE,
};

// Tags that there are, and numbers no wider than what they are numbers of.
fn is_spelled(part: &[u64]) -> bool
    requires { length part.now ≡ SLOT }
    ensures { result ≡ spelled part.now }
{
    part[KIND] <= CONTROLLED
        && (part[STATUS_TAG] <= GIVEN
            && (part[STATUS_VALUE] < BYTE_VALUES
                && (part[FLOW_TAG] <= IN_FORCE
                    && (part[FLOW_WINDOW] < COUNT_VALUES && part[SEQUENCE] < COUNT_VALUES))))
}

// A channel's ID, and the length of its store.
fn setting_fits(id: u64, size: usize) -> bool
    ensures { result ≡ (ltb id RESERVED-CHANNEL && (leb SMALLEST-STORE size && leb size LARGEST-STORE)) }
{
    id < u64::from(RESERVED_CHANNEL) && (SMALLEST_STORE <= size && size <= LARGEST_STORE)
}

fn status_fits(tag: u64, value: u64) -> bool
    ensures { result ≡ status_allowed ends.Radio (status_of tag value) }
{
    if tag == ABSENT {
        return true;
    }
    value <= u64::from(HIGHEST_STATUS)
}

// A plain channel is free.
fn flow_fits(kind: u64, tag: u64) -> bool
    ensures { result ≡ plain_free kind tag }
{
    if kind == CONTROLLED {
        return true;
    }
    tag == FREE
}

// Whether what waits is what a store of this size can hold.
fn well_formed(part: &[u64], size: usize) -> bool
    requires { length part.now ≡ SLOT }
    ensures { result ≡ well_formed (queue_in part.now) size }
{
    let count = waiting::narrow(part[WAITING]);
    if count > MOST_WAITING {
        return false;
    }
    let mut bytes = 0;
    for at in 0..count {
        let length = waiting::narrow(part[FIXED + ENTRY * at]);
        if length < SHORTEST_PACKET {
            return false;
        }
        if length > LONGEST_PACKET {
            return false;
        }
        bytes += length;
    }
    bytes <= size
}

// Whether the words say a channel within the limits.
pub(crate) fn channel_fits(part: &[u64]) -> bool
    requires { length part.now ≡ SLOT }
    ensures { result ≡ (spelled part.now && channel_fits (channel_in part.now)) }
{
    let size = waiting::narrow(part[SIZE]);
    is_spelled(part)
        && (setting_fits(part[ID], size)
            && (status_fits(part[STATUS_TAG], part[STATUS_VALUE])
                && (flow_fits(part[KIND], part[FLOW_TAG]) && well_formed(part, size))))
}
