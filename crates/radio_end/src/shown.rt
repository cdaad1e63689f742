// What the words say of a channel. Nothing is changed.
ghost use Rattle.std.specs.Prelude.{◌≡◌};
ghost use Rattle.radio_end_words.specs.Words.{state_in};
ghost use Rattle.radio_end.specs.Shown.{shown_of};

use quantity::refusal::Refusal;
use radio_end_state::channel::Channel;
use radio_end_telling::locate;
use radio_end_words::place;

// 19, then 12.
pub fn show(words: &[u64], id: u8) -> Result<Channel, Refusal>
    ensures { result ≡ shown_of (state_in words.now) id }
{
    let index = locate::find(words, id)?;
    Ok(place::load(words, index))
}
