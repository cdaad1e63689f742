// An accepted radio control message in the lent words, and a silence: only a configured channel's status and flow state are written, and by a message the endpoint's
// Link Instance and Context.
#![tactic(auto)]

ghost use Rattle.std.specs.Prelude.{◌≡◌, true, ◌≤◌, length};
ghost use Rattle.ips_state.specs.Limits.{state_fits};
ghost use Rattle.ips_words.specs.Words.{HEAD, SLOT, COUNT-WORD, word, state_in};
ghost use Rattle.ips_words_radio.specs.HeardWords.{status_heard, flow_heard, heard_part, heard_slots, silenced_slot, silenced_words, instance_heard, context_heard, heard_words};

use flow::Flow;
use ips_words::layout::{
    ABSENT, CONTEXT_LENGTH, CONTEXT_TAG, CONTEXT_VALUE, CONTROLLED, COUNT_WORD, FLOW_TAG,
    FLOW_WINDOW, GIVEN, HEAD, ID, INSTANCE_LENGTH, INSTANCE_TAG, INSTANCE_VALUE, KIND, SLOT,
    STATUS_TAG, STATUS_VALUE,
};
use ips_words::{slot, waiting};
use meaning::message::{ContextBytes, Control, Window};
use quantity::count::LinkInstanceId;

// A channel that the message doesn't name is not reported.
fn hear_status(part: &mut [u64], status: Option<u8>)
    requires { length part.old ≡ SLOT }
    ensures { part.new ≡ status_heard status part.old }
{
    part[STATUS_TAG] = slot::status_tag(status);
    part[STATUS_VALUE] = slot::status_value(status);
}

// A plain channel's flow state stays.
fn hear_flow(part: &mut [u64], window: Option<Window>)
    requires { length part.old ≡ SLOT }
    ensures { part.new ≡ flow_heard window part.old }
{
    if part[KIND] != CONTROLLED {
        return;
    }
    let flow = flow::heard(true, Flow::Free, window);
    part[FLOW_TAG] = slot::flow_tag(flow);
    part[FLOW_WINDOW] = slot::flow_window(flow);
}

fn hear_slot(part: &mut [u64], status: Option<u8>, window: Option<Window>)
    requires { length part.old ≡ SLOT }
    ensures { part.new ≡ heard_part status window part.old }
{
    hear_status(part, status);
    hear_flow(part, window);
}

// Every configured channel hears what the message states of its own Channel ID.
fn hear_slots(words: &mut [u64], message: Control)
    requires { state_fits (state_in words.old) ≡ true }
    ensures { words.new ≡ heard_slots message words.old (word words.old COUNT-WORD) }
{
    let count = waiting::narrow(words[COUNT_WORD]);
    for at in 0..count {
        let from = HEAD + SLOT * at;
        let end = from + SLOT;
        let id = waiting::narrow(words[from + ID]);
        hear_slot(
            &mut words[from..end],
            message.statuses[id],
            message.windows[id],
        );
    }
}

fn hear_instance(words: &mut [u64], given: Option<(LinkInstanceId, usize)>)
    requires { HEAD ≤ length words.old }
    ensures { words.new ≡ instance_heard given words.old }
{
    let Some((id, size)) = given else {
        return;
    };
    words[INSTANCE_TAG] = GIVEN;
    words[INSTANCE_VALUE] = id.0;
    words[INSTANCE_LENGTH] = waiting::wide(size);
}

// A message without a Context leaves none.
fn hear_context(words: &mut [u64], given: Option<(ContextBytes, usize)>)
    requires { HEAD ≤ length words.old }
    ensures { words.new ≡ context_heard given words.old }
{
    let Some((bytes, size)) = given else {
        words[CONTEXT_TAG] = ABSENT;
        words[CONTEXT_VALUE] = 0;
        words[CONTEXT_LENGTH] = 0;
        return;
    };
    words[CONTEXT_TAG] = GIVEN;
    words[CONTEXT_VALUE] = bytes.0;
    words[CONTEXT_LENGTH] = waiting::wide(size);
}

// The words after an accepted radio control message.
pub fn hear(words: &mut [u64], message: Control)
    requires { state_fits (state_in words.old) ≡ true }
    ensures { words.new ≡ heard_words message words.old }
{
    let instance = message.instance;
    let context = message.context;
    hear_slots(words, message);
    hear_instance(words, instance);
    hear_context(words, context);
}

// A silence reports nothing of a channel, and gives it no window.
fn silence_slot(part: &mut [u64])
    requires { length part.old ≡ SLOT }
    ensures { part.new ≡ silenced_slot part.old }
{
    hear_slot(part, None, Some(Window::Empty));
}

// The words after a silence: every configured channel's, and none of the endpoint's own.
pub fn silence(words: &mut [u64])
    requires { state_fits (state_in words.old) ≡ true }
    ensures { words.new ≡ silenced_words words.old }
{
    let count = waiting::narrow(words[COUNT_WORD]);
    for at in 0..count {
        let from = HEAD + SLOT * at;
        let end = from + SLOT;
        silence_slot(&mut words[from..end]);
    }
}
