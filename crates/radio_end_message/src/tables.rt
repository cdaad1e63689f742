// The tables of statuses and windows over the Channel IDs.
ghost use Rattle.std.specs.Prelude.{◌≡◌, get_or, set};
ghost use Rattle.radio_end_state.specs.State.{no_channel};
ghost use Rattle.radio_end_words.specs.Words.{state_in, Placed};
ghost use Rattle.radio_end_message.specs.Changed.{changed_channels, tables_of, Replaces};

use meaning::message::Window;
use quantity::count::FlowSequence;
use quantity::limit::CHANNEL_IDS;
use radio_end_state::channel;
use radio_end_state::channel::Channel;
use radio_end_words::place;

#[derive(Clone, Copy)]
pub struct Tables {
    pub statuses: [Option<u8>; CHANNEL_IDS],
    pub windows: [Option<Window>; CHANNEL_IDS],
}

// The channel at a place, or the one that takes its place.
fn current(words: &[u64], at: usize, index: usize, channel: Channel) -> Channel
    requires { Placed words.now at }
    ensures { result ≡ get_or (set (state_in words.now).channels index channel) at no_channel }
{
    if at == index {
        return channel;
    }
    place::load(words, at)
}

// From the last channel to the first.
pub(crate) fn fill(
    words: &[u64],
    index: usize,
    channel: Channel,
    sequences: [Option<FlowSequence>; CHANNEL_IDS],
) -> Tables
    requires { Replaces (state_in words.now) index channel }
    ensures { result ≡ tables_of (changed_channels (state_in words.now) index channel sequences) }
{
    let mut statuses = [None; CHANNEL_IDS];
    let mut windows = [None; CHANNEL_IDS];
    for at in (0..place::count(words)).rev() {
        let before = current(words, at, index, channel);
        let id = before.setting.id as usize;
        let heard = channel::hear(before, sequences[id]);
        let window = channel::window(heard);
        statuses[id] = Some(heard.status);
        windows[id] = window;
    }
    Tables { statuses, windows }
}
