// The endpoint's own words: the datalink's setting, Link Instance, Context and the pacer.
ghost use Rattle.std.specs.Prelude.{◌≡◌, ◌≤◌, ◌<◌, length};
ghost use Rattle.ips_words.specs.Words.{HEAD, DATALINK-WORD, CODES-WORD, word, given_of, state_of, put_pacer};

use crate::layout::{
    ABSENT, CLOCK_WORD, CODES_WORD, CONTEXT_LENGTH, CONTEXT_TAG, CONTEXT_VALUE, DATALINK_WORD,
    DUE_WORD, HEARD_WORD, HELLO_WORD, INSTANCE_LENGTH, INSTANCE_TAG, INSTANCE_VALUE, LIMIT_WORD,
};
use crate::{slot, waiting};
use ips_channel::state::DatalinkSetting;
use meaning::message::ContextBytes;
use meaning::status::StatusCodes;
use pacer::Pacer;
use quantity::count::{DatalinkId, LinkInstanceId};

pub fn datalink(words: &[u64]) -> DatalinkId
    requires { (HEAD ≤ length words.now) × (word words.now DATALINK-WORD < 256) }
    ensures { result ≡ (state_of words.now).datalink.id }
{
    DatalinkId(slot::byte(words[DATALINK_WORD]))
}

// How the datalink is configured: its ID, and which of the statuses 8 to 15 are operational.
pub fn setting(words: &[u64]) -> DatalinkSetting
    requires { (HEAD ≤ length words.now) × (word words.now DATALINK-WORD < 256) × (word words.now CODES-WORD < 256) }
    ensures { result ≡ (state_of words.now).datalink }
{
    DatalinkSetting {
        id: datalink(words),
        codes: StatusCodes(slot::byte(words[CODES_WORD])),
    }
}

// What is stated with a length of its own, as a Link Instance and a Context are.
fn given_of<A: Copy>(tag: u64, stated: A, size: u64) -> Option<(A, usize)>
    ensures { result ≡ given_of tag stated size }
{
    if tag == ABSENT {
        return None;
    }
    Some((stated, waiting::narrow(size)))
}

pub fn instance(words: &[u64]) -> Option<(LinkInstanceId, usize)>
    requires { HEAD ≤ length words.now }
    ensures { result ≡ (state_of words.now).instance }
{
    given_of(
        words[INSTANCE_TAG],
        LinkInstanceId(words[INSTANCE_VALUE]),
        words[INSTANCE_LENGTH],
    )
}

pub fn context(words: &[u64]) -> Option<(ContextBytes, usize)>
    requires { HEAD ≤ length words.now }
    ensures { result ≡ (state_of words.now).context }
{
    given_of(
        words[CONTEXT_TAG],
        ContextBytes(words[CONTEXT_VALUE]),
        words[CONTEXT_LENGTH],
    )
}

pub fn pacer(words: &[u64]) -> Pacer
    requires { HEAD ≤ length words.now }
    ensures { result ≡ (state_of words.now).pacer }
{
    Pacer {
        hello: words[HELLO_WORD],
        limit: words[LIMIT_WORD],
        clock: words[CLOCK_WORD],
        due: words[DUE_WORD],
        heard: words[HEARD_WORD],
    }
}

// The pacer's times; its waits stay as configured.
pub fn move_pacer(words: &mut [u64], pacer: Pacer)
    requires { HEAD ≤ length words.old }
    ensures { words.new ≡ put_pacer words.old pacer }
{
    words[CLOCK_WORD] = pacer.clock;
    words[DUE_WORD] = pacer.due;
    words[HEARD_WORD] = pacer.heard;
}
