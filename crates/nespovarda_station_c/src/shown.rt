// What C calls of `nespovarda_station::shown`: each call of it under the same clauses.
ghost use Rattle.std.specs.Prelude.{◌≡◌};
ghost use Rattle.radio_end_words.specs.Words.{state_in};
ghost use Rattle.nespovarda_station.specs.Shown.{channel_numbers, ShowsChannel};

use answer_codes::Answer;
use nespovarda_station::shown::STATION_NUMBERS;
use radio_end_state::channel;

#[unsafe(no_mangle)]
pub extern "C" fn nespovarda_station_show(
    words: &[u64],
    channel: u8,
    shown: &mut [u64; STATION_NUMBERS],
) -> Answer
    ensures { ShowsChannel (state_in words.now) channel shown.old result shown.new }
{
    nespovarda_station::shown::nespovarda_station_show(words, channel, shown)
}
