// A control message in words.
ghost use Rattle.std.specs.Prelude.{◌≡◌, ◌&&◌, is_none, ◌++◌, ◌+◌, ◌≤◌, ◌<◌, length, take, drop};
ghost use Rattle.quantity.specs.Limits.{CHANNEL-IDS};
ghost use Rattle.lent_messages.specs.Layout.{CONTROL-HEAD, CHANNEL-WORDS, CONTROL-WORDS};
ghost use Rattle.lent_messages.specs.Words.{head_words, channel_words, channel_start, words_at, joined, control_words, status_at, sequence_at, window_at, control_of, head_spelled, channel_spelled, channels_spelled, ChannelSays, ControlSays, control_spelled};

use crate::layout::{
    BYTE, CHANNEL_WORDS, CONTEXT_LENGTH, CONTEXT_TAG, CONTEXT_VALUE, CONTROL_HEAD, CONTROL_WORDS,
    DATALINK_TAG, DATALINK_VALUE, FIELD_GIVEN, GIVEN, HALF, INSTANCE_LENGTH, INSTANCE_TAG,
    INSTANCE_VALUE, SEQUENCE_TAG, SEQUENCE_VALUE, STATUS_TAG, STATUS_VALUE, WINDOW_TAG,
    WINDOW_VALUE,
};
use crate::stated;
use meaning::message::{ContextBytes, Control, Window};
use quantity::count::{DatalinkId, FlowSequence, LinkInstanceId};
use quantity::limit::CHANNEL_IDS;
use std::array;

fn save_head(
    words: &mut [u64],
    datalink: Option<DatalinkId>,
    instance: Option<(LinkInstanceId, usize)>,
    context: Option<(ContextBytes, usize)>,
)
    requires { CONTROL-HEAD ≤ length words.old }
    ensures { words.new ≡ head_words datalink instance context ++ drop CONTROL-HEAD words.old }
{
    let link = stated::one(datalink);
    let named = stated::instance(instance);
    let told = stated::context(context);
    words[DATALINK_TAG] = link.tag;
    words[DATALINK_VALUE] = link.first;
    words[INSTANCE_TAG] = named.tag;
    words[INSTANCE_VALUE] = named.first;
    words[INSTANCE_LENGTH] = named.second;
    words[CONTEXT_TAG] = told.tag;
    words[CONTEXT_VALUE] = told.first;
    words[CONTEXT_LENGTH] = told.second;
}

// Where the words of a Channel ID start.
fn channel_start(id: usize) -> usize
    requires { id < CHANNEL-IDS }
    ensures { result ≡ channel_start id }
{
    CONTROL_HEAD + CHANNEL_WORDS * id
}

// Whether a message says nothing of a Channel ID, as it does of most.
fn says_nothing(status: Option<u8>, sequence: Option<FlowSequence>, window: Option<Window>) -> bool
    ensures { result ≡ (is_none status && (is_none sequence && is_none window)) }
{
    status.is_none() && (sequence.is_none() && window.is_none())
}

// The words of one Channel ID, from a place on.
fn save_channel(
    words: &mut [u64],
    from: usize,
    status: Option<u8>,
    sequence: Option<FlowSequence>,
    window: Option<Window>,
)
    requires { from + CHANNEL-WORDS ≤ length words.old }
    ensures { words.new ≡ take from words.old ++ (channel_words status sequence window ++ drop (from + CHANNEL-WORDS) words.old) }
{
    if says_nothing(status, sequence, window) {
        words[from..from + CHANNEL_WORDS].fill(0);
        return;
    }
    let state = stated::one(status);
    let counted = stated::one(sequence);
    let opened = stated::window(window);
    words[from + STATUS_TAG] = state.tag;
    words[from + STATUS_VALUE] = state.first;
    words[from + SEQUENCE_TAG] = counted.tag;
    words[from + SEQUENCE_VALUE] = counted.first;
    words[from + WINDOW_TAG] = opened.tag;
    words[from + WINDOW_VALUE] = opened.first;
}

// The tables are lent: by value each would be copied.
fn save_channels(
    words: &mut [u64],
    statuses: &[Option<u8>; CHANNEL_IDS],
    sequences: &[Option<FlowSequence>; CHANNEL_IDS],
    windows: &[Option<Window>; CHANNEL_IDS],
)
    requires { length words.old ≡ CONTROL-WORDS }
    ensures { words.new ≡ take CONTROL-HEAD words.old ++ joined (words_at statuses.now sequences.now windows.now) CHANNEL-IDS }
{
    for id in 0..CHANNEL_IDS {
        save_channel(
            words,
            channel_start(id),
            statuses[id],
            sequences[id],
            windows[id],
        );
    }
}

// The words of a message, over all that stood there.
pub fn save(words: &mut [u64], message: &Control)
    requires { length words.old ≡ CONTROL-WORDS }
    ensures { words.new ≡ control_words message.now }
{
    save_head(words, message.datalink, message.instance, message.context);
    save_channels(
        words,
        &message.statuses,
        &message.sequences,
        &message.windows,
    );
}

// The words say something: tags that there are, and numbers no wider than what they are numbers of.
fn head_spelled(words: &[u64]) -> bool
    requires { length words.now ≡ CONTROL-WORDS }
    ensures { result ≡ head_spelled words.now }
{
    stated::fits(words[DATALINK_TAG], GIVEN, words[DATALINK_VALUE], BYTE)
        && (words[INSTANCE_TAG] <= GIVEN && words[CONTEXT_TAG] <= GIVEN)
}

fn channel_spelled(words: &[u64], id: usize) -> bool
    requires below { id < CHANNEL-IDS }
    requires whole { length words.now ≡ CONTROL-WORDS }
    ensures { result ≡ channel_spelled words.now (channel_start id) }
{
    let from = channel_start(id);
    stated::fits(
        words[from + STATUS_TAG],
        GIVEN,
        words[from + STATUS_VALUE],
        BYTE,
    ) && (stated::fits(
        words[from + SEQUENCE_TAG],
        GIVEN,
        words[from + SEQUENCE_VALUE],
        HALF,
    ) && stated::fits(
        words[from + WINDOW_TAG],
        FIELD_GIVEN,
        words[from + WINDOW_VALUE],
        HALF,
    ))
}

fn channels_spelled(words: &[u64]) -> bool
    requires { length words.now ≡ CONTROL-WORDS }
    ensures { result ≡ channels_spelled words.now CHANNEL-IDS }
{
    (0..CHANNEL_IDS).all(|id| channel_spelled(words, id))
}

pub fn spelled(words: &[u64]) -> bool
    ensures { result ≡ control_spelled words.now }
{
    words.len() == CONTROL_WORDS && (head_spelled(words) && channels_spelled(words))
}

// What is stated of one Channel ID.
fn status_at(words: &[u64], id: usize) -> Option<u8>
    requires below { id < CHANNEL-IDS }
    requires says { ControlSays words.now }
    ensures { result ≡ status_at words.now (channel_start id) }
{
    let from = channel_start(id);
    stated::one_of(words[from + STATUS_TAG], words[from + STATUS_VALUE])
}

fn sequence_at(words: &[u64], id: usize) -> Option<FlowSequence>
    requires below { id < CHANNEL-IDS }
    requires says { ControlSays words.now }
    ensures { result ≡ sequence_at words.now (channel_start id) }
{
    let from = channel_start(id);
    stated::one_of(words[from + SEQUENCE_TAG], words[from + SEQUENCE_VALUE])
}

fn window_at(words: &[u64], id: usize) -> Option<Window>
    requires below { id < CHANNEL-IDS }
    requires says { ControlSays words.now }
    ensures { result ≡ window_at words.now (channel_start id) }
{
    let from = channel_start(id);
    stated::window_of(words[from + WINDOW_TAG], words[from + WINDOW_VALUE])
}

// The message that the words state.
pub fn load(words: &[u64]) -> Control
    requires { ControlSays words.now }
    ensures { result ≡ control_of words.now }
{
    Control {
        datalink: stated::one_of(words[DATALINK_TAG], words[DATALINK_VALUE]),
        instance: stated::instance_of(
            words[INSTANCE_TAG],
            words[INSTANCE_VALUE],
            words[INSTANCE_LENGTH],
        ),
        context: stated::context_of(
            words[CONTEXT_TAG],
            words[CONTEXT_VALUE],
            words[CONTEXT_LENGTH],
        ),
        statuses: array::from_fn(|id| status_at(words, id)),
        sequences: array::from_fn(|id| sequence_at(words, id)),
        windows: array::from_fn(|id| window_at(words, id)),
    }
}
