// What C calls of `nespovarda_station::calls`: each call of it under the same clauses.
ghost use Rattle.std.specs.Prelude.{[], ◌≡◌};
ghost use Rattle.radio_end_state.specs.Calls.{heard, status_told, queued_told, context_told, link_told, told};
ghost use Rattle.radio_end_words.specs.Words.{state_in};
ghost use Rattle.radio_end.specs.Shown.{words_needed};
ghost use Rattle.nespovarda_station.specs.Named.{instance_said, context_said};
ghost use Rattle.nespovarda_station.specs.Exports.{Exported, StartExported};

use answer_codes::Answer;

#[unsafe(no_mangle)]
pub extern "C" fn nespovarda_station_words(channels: u64) -> u64
    ensures { result ≡ words_needed channels }
{
    nespovarda_station::calls::nespovarda_station_words(channels)
}

#[unsafe(no_mangle)]
pub extern "C" fn nespovarda_station_start(words: &mut [u64], configuration: &[u64]) -> Answer
    ensures { StartExported configuration.now words.old result words.new }
{
    nespovarda_station::calls::nespovarda_station_start(words, configuration)
}

#[unsafe(no_mangle)]
pub extern "C" fn nespovarda_station_hear(
    words: &mut [u64],
    datagram: &[u8],
    out: &mut [u8],
) -> Answer
    ensures { Exported (heard (state_in words.old) datagram.now out.old) words.old result words.new out.new }
{
    nespovarda_station::calls::nespovarda_station_hear(words, datagram, out)
}

#[unsafe(no_mangle)]
pub extern "C" fn nespovarda_station_status(
    words: &mut [u64],
    channel: u8,
    value: u8,
    out: &mut [u8],
) -> Answer
    ensures { Exported (status_told (state_in words.old) channel value out.old) words.old result words.new out.new }
{
    nespovarda_station::calls::nespovarda_station_status(words, channel, value, out)
}

#[unsafe(no_mangle)]
pub extern "C" fn nespovarda_station_queued(
    words: &mut [u64],
    channel: u8,
    bytes: u64,
    out: &mut [u8],
) -> Answer
    ensures { Exported (queued_told (state_in words.old) channel (record { 0 = bytes }) out.old) words.old result words.new out.new }
{
    nespovarda_station::calls::nespovarda_station_queued(words, channel, bytes, out)
}

#[unsafe(no_mangle)]
pub extern "C" fn nespovarda_station_context(
    words: &mut [u64],
    value: u64,
    length: u64,
    out: &mut [u8],
) -> Answer
    ensures { Exported (context_told (state_in words.old) (context_said value length) out.old) words.old result words.new out.new }
{
    nespovarda_station::calls::nespovarda_station_context(words, value, length, out)
}

#[unsafe(no_mangle)]
pub extern "C" fn nespovarda_station_link(words: &mut [u64], value: u64, length: u64) -> Answer
    ensures { Exported (link_told (state_in words.old) (instance_said value length) []) words.old result words.new [] }
{
    nespovarda_station::calls::nespovarda_station_link(words, value, length)
}

#[unsafe(no_mangle)]
pub extern "C" fn nespovarda_station_tell(words: &[u64], out: &mut [u8]) -> Answer
    ensures { Exported (told (state_in words.now) out.old) words.now result words.now out.new }
{
    nespovarda_station::calls::nespovarda_station_tell(words, out)
}
