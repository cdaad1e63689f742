// Where a channel stands in the words, and the channel at an index of the configuration. Number 19 was tested.
ghost use Rattle.std.specs.Prelude.{◌≡◌, true, length};
ghost use Rattle.radio_end_state.specs.State.{channel_at, with_channel};
ghost use Rattle.radio_end_state.specs.Limits.{state_fits, ids, index_of, index_in};
ghost use Rattle.radio_end_words.specs.Words.{state_of, state_in, state_words, Counted, Placed};

use crate::layout::{COUNT_WORD, HEAD, SLOT};
use crate::{rows, slot};
use radio_end_state::channel::Channel;

// The first channel with this ID; behind the last, if there is none.
pub fn index_of(words: &[u64], count: usize, id: u64) -> usize
    requires { Counted words.now count }
    ensures { result ≡ index_of id (ids (state_of words.now).channels) }
{
    rows::index_of::<HEAD, SLOT>(words, count, id)
}

pub fn count(words: &[u64]) -> usize
    requires { state_fits (state_in words.now) ≡ true }
    ensures { result ≡ length (state_in words.now).channels }
{
    words[COUNT_WORD] as usize
}

pub fn find(words: &[u64], id: u8) -> usize
    requires { state_fits (state_in words.now) ≡ true }
    ensures { result ≡ index_in (state_in words.now) id }
{
    index_of(words, count(words), id as u64)
}

pub fn load(words: &[u64], index: usize) -> Channel
    requires { Placed words.now index }
    ensures { result ≡ channel_at (state_in words.now) index }
{
    let from = HEAD + SLOT * index;
    let to = from + SLOT;
    slot::load(&words[from..to])
}

pub fn save(words: &mut [u64], index: usize, channel: Channel)
    requires { Placed words.old index }
    ensures { words.new ≡ state_words (with_channel (state_in words.old) index channel) }
{
    let from = HEAD + SLOT * index;
    let to = from + SLOT;
    slot::save(&mut words[from..to], channel);
}
