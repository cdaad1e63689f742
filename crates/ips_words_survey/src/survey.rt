// One pass over the words: whether the state that they stand for is within the limits, and where a channel and its store stand.
ghost use Rattle.std.specs.Prelude.{◌≡◌, ◌≤◌, length};
ghost use Rattle.ips_state.specs.Limits.{names_fit, head_fits};
ghost use Rattle.ips_words.specs.Words.{HEAD, state_of, state_in, head_spelled};
ghost use Rattle.ips_words_survey.specs.Survey.{Counted, walked_in, survey_of, within_limits};

use crate::limits;
use ips_words::layout::{
    BYTE_VALUES, CODES_WORD, CONTEXT_TAG, COUNT_WORD, DATALINK_WORD, GIVEN, ID, INSTANCE_TAG, SIZE,
    SLOT,
};
use ips_words::{head, layout, waiting};
use meaning::message::End;
use quantity::count::ByteCount;
use quantity::limit::{FEWEST_CHANNELS, MOST_CHANNELS};
use quantity::refusal;
use quantity::refusal::Refusal;
use writable::part;

// Of a state within the limits. A channel that is not configured has the index behind the last.
#[derive(Clone, Copy)]
pub struct Survey {
    pub total: ByteCount,
    pub index: usize,
    pub start: ByteCount,
}

// The values of a byte.
const BYTES: usize = 256;

// The channels one after another: `seen` has the Channel IDs before.
fn walk(words: &[u64], count: usize, id: u8) -> Option<Survey>
    requires { Counted words.now count }
    ensures { result ≡ walked_in words.now count id }
{
    let mut seen = [false; BYTES];
    let mut total: usize = 0;
    let mut index = count;
    let mut start: usize = 0;
    for at in 0..count {
        let from = layout::HEAD + SLOT * at;
        let part = &words[from..from + SLOT];
        if !limits::channel_fits(part) {
            return None;
        }
        let here = waiting::narrow(part[ID]);
        if seen[here] {
            return None;
        }
        seen[here] = true;
        if here == usize::from(id) {
            index = at;
            start = total;
        }
        total += waiting::narrow(part[SIZE]);
    }
    if !seen[0] {
        return None;
    }
    Some(Survey {
        total: ByteCount(total),
        index,
        start: ByteCount(start),
    })
}

// Link Instance and Context within their lengths.
fn names_fit(words: &[u64]) -> bool
    requires { HEAD ≤ length words.now }
    ensures { result ≡ names_fit (state_of words.now) }
{
    let instance = head::instance(words);
    let context = head::context(words);
    part::instance(End::Radio, instance) && part::context(End::Radio, context)
}

// The two waits too.
fn head_fits(words: &[u64]) -> bool
    requires { HEAD ≤ length words.now }
    ensures { result ≡ head_fits (state_of words.now) }
{
    let kept = head::pacer(words);
    names_fit(words) && pacer::fits(kept.hello, kept.limit)
}

fn head_spelled(words: &[u64]) -> bool
    requires { HEAD ≤ length words.now }
    ensures { result ≡ head_spelled words.now }
{
    words[DATALINK_WORD] < BYTE_VALUES
        && (words[INSTANCE_TAG] <= GIVEN
            && (words[CONTEXT_TAG] <= GIVEN && words[CODES_WORD] < BYTE_VALUES))
}

// Of a state within the limits: the length of the memory it asks for, and where the channel of an ID and its store stand.
pub fn survey_words(words: &[u64], id: u8) -> Option<Survey>
    ensures { result ≡ survey_of (state_in words.now) id }
{
    if words.len() < layout::HEAD {
        return None;
    }
    let count = waiting::narrow(words[COUNT_WORD]);
    if count < FEWEST_CHANNELS {
        return None;
    }
    if count > MOST_CHANNELS {
        return None;
    }
    if words.len() != layout::HEAD + SLOT * count {
        return None;
    }
    if !head_spelled(words) {
        return None;
    }
    if !head_fits(words) {
        return None;
    }
    walk(words, count, id)
}

// Number 19 alone.
pub fn judge(words: &[u64]) -> Result<(), Refusal>
    ensures { result ≡ within_limits (state_in words.now) }
{
    match survey_words(words, 0) {
        Some(_) => Ok(()),
        None => Err(Refusal {
            number: refusal::OUTSIDE_LIMITS,
            place: 0,
        }),
    }
}
