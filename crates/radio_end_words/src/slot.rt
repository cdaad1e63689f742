// One channel in its words.
ghost use Rattle.std.specs.Prelude.{◌≡◌, ◌^◌, ◌<◌, length};
ghost use Rattle.radio_end_words.specs.Words.{SLOT, highest_of, channel_in, highest_tag, highest_value, channel_words, Loadable};

use crate::layout::{
    CONTROLLED, HEARD, HIGHEST_TAG, HIGHEST_VALUE, ID, KIND, QUEUED, STATUS, THROUGHPUT, UNHEARD,
    WATERMARK,
};
use quantity::count::{ByteCount, FlowSequence};
use radio_end_state::channel::{Channel, Setting};

fn highest_of(tag: u64, value: u64) -> Option<FlowSequence>
    requires { value < 2 ^ 32 }
    ensures { result ≡ highest_of tag value }
{
    if tag == UNHEARD {
        return None;
    }
    Some(FlowSequence(value as u32))
}

pub fn highest_tag(highest: Option<FlowSequence>) -> u64
    ensures { result ≡ highest_tag highest }
{
    match highest {
        None => UNHEARD,
        Some(_) => HEARD,
    }
}

pub fn highest_value(highest: Option<FlowSequence>) -> u64
    ensures { result ≡ highest_value highest }
{
    match highest {
        None => 0,
        Some(sequence) => sequence.0 as u64,
    }
}

// The channel that the words say.
pub fn load(part: &[u64]) -> Channel
    requires { Loadable part.now }
    ensures { result ≡ channel_in part.now }
{
    let setting = Setting {
        id: part[ID] as u8,
        controlled: part[KIND] == CONTROLLED,
        watermark: ByteCount(part[WATERMARK] as usize),
        throughput: ByteCount(part[THROUGHPUT] as usize),
    };
    let highest = highest_of(part[HIGHEST_TAG], part[HIGHEST_VALUE]);
    Channel {
        setting,
        status: part[STATUS] as u8,
        queued: ByteCount(part[QUEUED] as usize),
        highest,
    }
}

// The words of a channel, every one of them written.
pub fn save(part: &mut [u64], channel: Channel)
    requires { length part.old ≡ SLOT }
    ensures { part.new ≡ channel_words channel }
{
    let setting = channel.setting;
    let watermark = setting.watermark;
    let throughput = setting.throughput;
    let queued = channel.queued;
    let highest = channel.highest;
    part[ID] = setting.id as u64;
    part[KIND] = setting.controlled as u64;
    part[WATERMARK] = watermark.0 as u64;
    part[THROUGHPUT] = throughput.0 as u64;
    part[STATUS] = channel.status as u64;
    part[QUEUED] = queued.0 as u64;
    part[HIGHEST_TAG] = highest_tag(highest);
    part[HIGHEST_VALUE] = highest_value(highest);
}
