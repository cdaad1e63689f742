// The radio's own words: Datalink ID, Link Instance and Context.
ghost use Rattle.std.specs.Prelude.{◌≡◌, ◌≤◌, true, length};
ghost use Rattle.radio_end_state.specs.State.{with_context, with_instance};
ghost use Rattle.radio_end_state.specs.Limits.{state_fits};
ghost use Rattle.radio_end_words.specs.Words.{HEAD, state_of, state_in, state_words};

use crate::layout::{
    CONTEXT_LENGTH, CONTEXT_TAG, CONTEXT_VALUE, DATALINK_WORD, INSTANCE_LENGTH, INSTANCE_TAG,
    INSTANCE_VALUE,
};
use lent_messages::stated;
use meaning::message::ContextBytes;
use quantity::count::{DatalinkId, LinkInstanceId};

pub fn datalink(words: &[u64]) -> DatalinkId
    requires { state_fits (state_in words.now) ≡ true }
    ensures { result ≡ (state_in words.now).datalink }
{
    DatalinkId(words[DATALINK_WORD] as u8)
}

// Before 19 is known: the words say so much, if there are enough of them.
pub fn instance_said(words: &[u64]) -> Option<(LinkInstanceId, usize)>
    requires { HEAD ≤ length words.now }
    ensures { result ≡ (state_of words.now).instance }
{
    stated::instance_of(
        words[INSTANCE_TAG],
        words[INSTANCE_VALUE],
        words[INSTANCE_LENGTH],
    )
}

pub fn context_said(words: &[u64]) -> Option<(ContextBytes, usize)>
    requires { HEAD ≤ length words.now }
    ensures { result ≡ (state_of words.now).context }
{
    stated::context_of(
        words[CONTEXT_TAG],
        words[CONTEXT_VALUE],
        words[CONTEXT_LENGTH],
    )
}

pub fn instance(words: &[u64]) -> Option<(LinkInstanceId, usize)>
    requires { state_fits (state_in words.now) ≡ true }
    ensures { result ≡ (state_in words.now).instance }
{
    instance_said(words)
}

pub fn context(words: &[u64]) -> Option<(ContextBytes, usize)>
    requires { state_fits (state_in words.now) ≡ true }
    ensures { result ≡ (state_in words.now).context }
{
    context_said(words)
}

pub fn save_instance(words: &mut [u64], instance: Option<(LinkInstanceId, usize)>)
    requires { state_fits (state_in words.old) ≡ true }
    ensures { words.new ≡ state_words (with_instance (state_in words.old) instance) }
{
    let named = stated::instance(instance);
    words[INSTANCE_TAG] = named.tag;
    words[INSTANCE_VALUE] = named.first;
    words[INSTANCE_LENGTH] = named.second;
}

pub fn save_context(words: &mut [u64], context: Option<(ContextBytes, usize)>)
    requires { state_fits (state_in words.old) ≡ true }
    ensures { words.new ≡ state_words (with_context (state_in words.old) context) }
{
    let told = stated::context(context);
    words[CONTEXT_TAG] = told.tag;
    words[CONTEXT_VALUE] = told.first;
    words[CONTEXT_LENGTH] = told.second;
}
