// The channel at an index of the configuration, loaded from its words and saved to them. Number 19 was tested.
ghost use Rattle.std.specs.Prelude.{◌≡◌};
ghost use Rattle.ips_state.specs.State.{channel_at};
ghost use Rattle.ips_words.specs.Words.{state_in, put_channel};
ghost use Rattle.endpoint.specs.Calls.{Placed};

use ips_channel::state::Channel;
use ips_words::layout::{HEAD, SLOT};
use ips_words::slot;

pub(crate) fn load(words: &[u64], index: usize) -> Channel
    requires { Placed words.now index }
    ensures { result ≡ channel_at (state_in words.now) index }
{
    let from = HEAD + SLOT * index;
    let to = from + SLOT;
    slot::load(&words[from..to])
}

pub(crate) fn save(words: &mut [u64], index: usize, channel: Channel)
    requires { Placed words.old index }
    ensures { words.new ≡ put_channel words.old index channel }
{
    let from = HEAD + SLOT * index;
    let to = from + SLOT;
    slot::save(&mut words[from..to], channel);
}
