// One channel in its words.
ghost use Rattle.std.specs.Prelude.{◌≡◌, ◌++◌, ◌^◌, ◌<◌, length, drop};
ghost use Rattle.ips_words.specs.Words.{FIXED, SLOT, fixed_words, status_of, flow_of, channel_in, channel_words, Loadable, status_tag, status_value, flow_tag, flow_window};

use crate::layout::{
    ABSENT, CONTROLLED, FLOW_TAG, FLOW_WINDOW, FREE, GIVEN, ID, IN_FORCE, KIND, LATEST, NO_WINDOW,
    SEQUENCE, SIZE, STATUS_TAG, STATUS_VALUE, WAITING,
};
use crate::waiting;
use flow::Flow;
use ips_channel::state::{Channel, Setting};
use quantity::count::{ByteCount, FlowSequence, FlowWindow};

pub(crate) fn byte(value: u64) -> u8
    requires { value < 256 }
    ensures { result ≡ value }
{
    value as u8
}

fn count(value: u64) -> u32
    requires { value < 2 ^ 32 }
    ensures { result ≡ value }
{
    value as u32
}

// An enum is a tag, and the word of what it holds.
fn status_of(tag: u64, value: u64) -> Option<u8>
    requires { value < 256 }
    ensures { result ≡ status_of tag value }
{
    if tag == ABSENT {
        return None;
    }
    Some(byte(value))
}

fn flow_of(tag: u64, window: u64) -> Flow
    requires { window < 2 ^ 32 }
    ensures { result ≡ flow_of tag window }
{
    if tag == FREE {
        return Flow::Free;
    }
    if tag == NO_WINDOW {
        return Flow::NoWindow;
    }
    Flow::InForce(FlowWindow(count(window)))
}

pub fn status_tag(status: Option<u8>) -> u64
    ensures { result ≡ status_tag status }
{
    match status {
        None => ABSENT,
        Some(_) => GIVEN,
    }
}

pub fn status_value(status: Option<u8>) -> u64
    ensures { result ≡ status_value status }
{
    match status {
        None => 0,
        Some(value) => u64::from(value),
    }
}

pub fn flow_tag(flow: Flow) -> u64
    ensures { result ≡ flow_tag flow }
{
    match flow {
        Flow::Free => FREE,
        Flow::NoWindow => NO_WINDOW,
        Flow::InForce(_) => IN_FORCE,
    }
}

pub fn flow_window(flow: Flow) -> u64
    ensures { result ≡ flow_window flow }
{
    match flow {
        Flow::Free => 0,
        Flow::NoWindow => 0,
        Flow::InForce(window) => u64::from(window.0),
    }
}

// The channel that the words say.
pub fn load(part: &[u64]) -> Channel
    requires { Loadable part.now }
    ensures { result ≡ channel_in part.now }
{
    let setting = Setting {
        id: byte(part[ID]),
        controlled: part[KIND] == CONTROLLED,
        size: ByteCount(waiting::narrow(part[SIZE])),
    };
    let status = status_of(part[STATUS_TAG], part[STATUS_VALUE]);
    let flow = flow_of(part[FLOW_TAG], part[FLOW_WINDOW]);
    let queue = waiting::load(part);
    Channel {
        setting,
        status,
        flow,
        sequence: FlowSequence(count(part[SEQUENCE])),
        latest: part[LATEST],
        queue,
    }
}

// The words before those of what waits.
fn save_fixed(part: &mut [u64], channel: Channel)
    requires { length part.old ≡ SLOT }
    ensures { part.new ≡ fixed_words channel ++ drop FIXED part.old }
{
    let setting = channel.setting;
    let status = channel.status;
    let flow = channel.flow;
    let queue = channel.queue;
    part[ID] = u64::from(setting.id);
    part[KIND] = u64::from(setting.controlled);
    part[SIZE] = waiting::wide(setting.size.0);
    part[STATUS_TAG] = status_tag(status);
    part[STATUS_VALUE] = status_value(status);
    part[FLOW_TAG] = flow_tag(flow);
    part[FLOW_WINDOW] = flow_window(flow);
    part[SEQUENCE] = u64::from(channel.sequence.0);
    part[LATEST] = channel.latest;
    part[WAITING] = waiting::wide(queue.count);
}

// The words of a channel, every one of them written.
pub fn save(part: &mut [u64], channel: Channel)
    requires { length part.old ≡ SLOT }
    ensures { part.new ≡ channel_words channel }
{
    save_fixed(part, channel);
    let queue = channel.queue;
    waiting::save(part, queue);
}
