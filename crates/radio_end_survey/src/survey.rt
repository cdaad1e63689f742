// One pass over the words: whether the state that they stand for is within the limits.
ghost use Rattle.std.specs.Prelude.{◌≡◌, ◌&&◌, ◌+◌, ◌≤◌, length};
ghost use Rattle.radio_end_state.specs.Limits.{channel_fits, names_fit, all_fit, ids, ids_fit, state_fits};
ghost use Rattle.radio_end_words.specs.Words.{HEAD, SLOT, slot_start, slot, channel_in, spelled, state_of, state_in, head_spelled, all_spelled, Counted};

use crate::limits;
use meaning::message::End;
use quantity::limit::{FEWEST_CHANNELS, MOST_CHANNELS};
use radio_end_words::layout::{
    CONTEXT_LENGTH, CONTEXT_TAG, CONTEXT_VALUE, COUNT_WORD, DATALINK_WORD, HEAD, INSTANCE_LENGTH,
    INSTANCE_TAG, INSTANCE_VALUE, SLOT,
};
use radio_end_words::{head, rows};
use writable::part;

// A Datalink ID is a byte.
const BYTE_VALUES: u64 = 256;

// Whether the channel at an index is said, and within the limits.
fn channel_fits(words: &[u64], index: usize) -> bool
    requires { slot_start index + SLOT ≤ length words.now }
    ensures { result ≡ (spelled (slot words.now index) && channel_fits (channel_in (slot words.now index))) }
{
    let from = HEAD + SLOT * index;
    limits::channel_fits(&words[from..from + SLOT])
}

// The channels one after another, and each ID at its first place.
fn walk(words: &[u64], count: usize) -> bool
    requires { Counted words.now count }
    ensures { result ≡ (all_spelled words.now count && (all_fit (state_of words.now).channels && ids_fit (ids (state_of words.now).channels))) }
{
    (0..count).all(|index| channel_fits(words, index)) && rows::ids_fit::<HEAD, SLOT>(words, count)
}

fn head_spelled(words: &[u64]) -> bool
    requires { HEAD ≤ length words.now }
    ensures { result ≡ head_spelled words.now }
{
    limits::name_spelled(
        words[INSTANCE_TAG],
        words[INSTANCE_VALUE],
        words[INSTANCE_LENGTH],
    ) && limits::name_spelled(
        words[CONTEXT_TAG],
        words[CONTEXT_VALUE],
        words[CONTEXT_LENGTH],
    )
}

// Link Instance and Context within their lengths.
fn names_fit(words: &[u64]) -> bool
    requires { HEAD ≤ length words.now }
    ensures { result ≡ names_fit (state_of words.now) }
{
    let instance = head::instance_said(words);
    let context = head::context_said(words);
    part::instance(End::Radio, instance) && part::context(End::Radio, context)
}

// Number 19.
pub fn fits(words: &[u64]) -> bool
    ensures { result ≡ state_fits (state_in words.now) }
{
    if words.len() < HEAD {
        return false;
    }
    let count = words[COUNT_WORD] as usize;
    if count < FEWEST_CHANNELS {
        return false;
    }
    if count > MOST_CHANNELS {
        return false;
    }
    if words.len() != HEAD + SLOT * count {
        return false;
    }
    if words[DATALINK_WORD] >= BYTE_VALUES {
        return false;
    }
    if !head_spelled(words) {
        return false;
    }
    if !names_fit(words) {
        return false;
    }
    walk(words, count)
}
