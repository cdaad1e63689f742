// The calls on the radio's end, whose state stands in lent words.
ghost use Rattle.std.specs.Prelude.{[], ◌≡◌};
ghost use Rattle.radio_end_state.specs.Calls.{heard, status_told, queued_told, context_told, link_told, told};
ghost use Rattle.radio_end_words.specs.Words.{state_in};
ghost use Rattle.radio_end.specs.Shown.{words_needed};
ghost use Rattle.nespovarda_station.specs.Named.{instance_said, context_said};
ghost use Rattle.nespovarda_station.specs.Exports.{Exported, StartExported};

use crate::{answer, named};
use answer_codes::Answer;
use quantity::count::ByteCount;

// How many words a state of so many channels asks for; 0 where no state has so many.
pub fn nespovarda_station_words(channels: u64) -> u64
    ensures { result ≡ words_needed channels }
{
    radio_end::words_for(channels as usize) as u64
}

pub fn nespovarda_station_start(words: &mut [u64], configuration: &[u64]) -> Answer
    ensures { StartExported configuration.now words.old result words.new }
{
    answer::of_start(radio_end::start(words, configuration))
}

pub fn nespovarda_station_hear(words: &mut [u64], datagram: &[u8], out: &mut [u8]) -> Answer
    ensures { Exported (heard (state_in words.old) datagram.now out.old) words.old result words.new out.new }
{
    answer::of_call(radio_end::hear(words, datagram, out))
}

pub fn nespovarda_station_status(
    words: &mut [u64],
    channel: u8,
    value: u8,
    out: &mut [u8],
) -> Answer
    ensures { Exported (status_told (state_in words.old) channel value out.old) words.old result words.new out.new }
{
    answer::of_call(radio_end::tell_status(words, channel, value, out))
}

pub fn nespovarda_station_queued(
    words: &mut [u64],
    channel: u8,
    bytes: u64,
    out: &mut [u8],
) -> Answer
    ensures { Exported (queued_told (state_in words.old) channel (record { 0 = bytes }) out.old) words.old result words.new out.new }
{
    let queued = ByteCount(bytes as usize);
    answer::of_call(radio_end::tell_queued(words, channel, queued, out))
}

pub fn nespovarda_station_context(
    words: &mut [u64],
    value: u64,
    length: u64,
    out: &mut [u8],
) -> Answer
    ensures { Exported (context_told (state_in words.old) (context_said value length) out.old) words.old result words.new out.new }
{
    let context = named::context(value, length);
    answer::of_call(radio_end::tell_context(words, context, out))
}

pub fn nespovarda_station_link(words: &mut [u64], value: u64, length: u64) -> Answer
    ensures { Exported (link_told (state_in words.old) (instance_said value length) []) words.old result words.new [] }
{
    let instance = named::instance(value, length);
    answer::of_call(radio_end::tell_link(words, instance))
}

pub fn nespovarda_station_tell(words: &[u64], out: &mut [u8]) -> Answer
    ensures { Exported (told (state_in words.now) out.old) words.now result words.now out.new }
{
    answer::of_call(radio_end::tell(words, out))
}
