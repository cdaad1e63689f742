// The words of a fresh start.
ghost use Rattle.std.specs.Prelude.{◌≡◌, ◌++◌, map, ◌≤◌, ◌<◌, length, take, drop};
ghost use Rattle.radio_end_state.specs.Channel.{fresh_channel};
ghost use Rattle.radio_end_state.specs.State.{fresh_state};
ghost use Rattle.radio_end_words.specs.Words.{HEAD, words_for, slots_of, state_words};
ghost use Rattle.radio_end_start.specs.Start.{setting_in, settings_of, configuration_of, fresh_head, Startable};

use crate::layout::{
    CONFIGURATION_HEAD, CONFIGURATION_SLOT, CONFIGURED_DATALINK, START_ID, START_KIND,
    START_THROUGHPUT, START_WATERMARK,
};
use lent_messages::layout::ABSENT;
use quantity::count::ByteCount;
use radio_end_state::channel::{Channel, Setting};
use radio_end_words::layout::{
    CONTEXT_LENGTH, CONTEXT_TAG, CONTEXT_VALUE, CONTROLLED, COUNT_WORD, DATALINK_WORD,
    INSTANCE_LENGTH, INSTANCE_TAG, INSTANCE_VALUE, SLOT,
};
use radio_end_words::{layout, slot};

// The radio's own words: no Link Instance and no Context.
fn write_head(words: &mut [u64], datalink: u64, count: u64)
    requires { HEAD ≤ length words.old }
    ensures { words.new ≡ fresh_head datalink count ++ drop HEAD words.old }
{
    words[DATALINK_WORD] = datalink;
    words[COUNT_WORD] = count;
    words[INSTANCE_TAG] = ABSENT;
    words[INSTANCE_VALUE] = 0;
    words[INSTANCE_LENGTH] = 0;
    words[CONTEXT_TAG] = ABSENT;
    words[CONTEXT_VALUE] = 0;
    words[CONTEXT_LENGTH] = 0;
}

// The channel at an index of the configuration: status 0, nothing queued, no sequence heard.
fn channel_at(configuration: &[u64], count: usize, index: usize) -> Channel
    requires startable { Startable configuration.now count }
    requires below { index < count }
    ensures { result ≡ fresh_channel (setting_in configuration.now index) }
{
    let from = CONFIGURATION_HEAD + CONFIGURATION_SLOT * index;
    let setting = Setting {
        id: configuration[from + START_ID] as u8,
        controlled: configuration[from + START_KIND] == CONTROLLED,
        watermark: ByteCount(configuration[from + START_WATERMARK] as usize),
        throughput: ByteCount(configuration[from + START_THROUGHPUT] as usize),
    };
    Channel {
        setting,
        status: 0,
        queued: ByteCount(0),
        highest: None,
    }
}

// Each channel in configuration order, behind the radio's own words.
fn write_channels(words: &mut [u64], configuration: &[u64], count: usize)
    requires { (length words.old ≡ words_for count) × Startable configuration.now count }
    ensures { words.new ≡ take HEAD words.old ++ slots_of (map fresh_channel (settings_of configuration.now count)) }
{
    for index in 0..count {
        let channel = channel_at(configuration, count, index);
        let from = layout::HEAD + SLOT * index;
        let to = from + SLOT;
        slot::save(&mut words[from..to], channel);
    }
}

// All words of the fresh state, every one of them written.
pub(crate) fn write(words: &mut [u64], configuration: &[u64], count: usize)
    requires { (length words.old ≡ words_for count) × Startable configuration.now count }
    ensures { words.new ≡ state_words (fresh_state (configuration_of configuration.now)) }
{
    write_head(words, configuration[CONFIGURED_DATALINK], count as u64);
    write_channels(words, configuration, count);
}
