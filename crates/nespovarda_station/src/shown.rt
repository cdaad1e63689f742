// What stands in the words of a channel, as numbers. Nothing of the state is changed.
ghost use Rattle.std.specs.Prelude.{◌≡◌};
ghost use Rattle.radio_end_words.specs.Words.{state_in};
ghost use Rattle.nespovarda_station.specs.Shown.{channel_numbers, ShowsChannel};

use answer_codes::{Answer, SHOWN, plain, refused};
use lent_messages::stated;
use radio_end_state::channel;
use radio_end_state::channel::Channel;
use radio_end_words::slot;

// How many numbers are shown of a channel.
pub const STATION_NUMBERS: usize = 6;

// The status; whether there is a Flow Window, without the field or with it, and the window; whether a sequence was heard, and the highest; the bytes queued.
fn show(channel: Channel, shown: &mut [u64; STATION_NUMBERS])
    ensures { shown.new ≡ channel_numbers channel }
{
    let highest = channel.highest;
    let queued = channel.queued;
    let window = stated::window(channel::window(channel));
    *shown = [
        channel.status as u64,
        window.tag,
        window.first,
        slot::highest_tag(highest),
        slot::highest_value(highest),
        queued.0 as u64,
    ];
}

// `SHOWN` and the channel's numbers; or 19, 12.
pub fn nespovarda_station_show(
    words: &[u64],
    channel: u8,
    shown: &mut [u64; STATION_NUMBERS],
) -> Answer
    ensures { ShowsChannel (state_in words.now) channel shown.old result shown.new }
{
    match radio_end::show(words, channel) {
        Ok(found) => {
            show(found, shown);
            plain(SHOWN)
        }
        Err(refusal) => refused(refusal),
    }
}
