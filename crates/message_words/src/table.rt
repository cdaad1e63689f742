// What a table states, by rising Channel ID.
ghost use Rattle.std.specs.Prelude.{List, ℕ};
ghost use Rattle.message_words.specs.Saying.{Says};
ghost use Rattle.message_words.specs.Phrases.{table_texts, status_texts, sequence_texts, window_texts};

use crate::part::{sequence, status, window};
use meaning::message::Window;
use quantity::count::FlowSequence;
use quantity::limit::CHANNEL_IDS;

// A place of a table, which has words for what it states of a channel.
pub trait Worded {
    ghost texts: { ℕ → Self → List (List ℕ) };

    fn say(self, out: &mut [u8], at: usize, channel: u8) -> usize
        ensures { Says out.old at (texts channel self) result out.new };
}

impl Worded for Option<u8> {
    ghost texts = { status_texts };

    fn say(self, out: &mut [u8], at: usize, channel: u8) -> usize {
        status(out, at, channel, self)
    }
}

impl Worded for Option<FlowSequence> {
    ghost texts = { sequence_texts };

    fn say(self, out: &mut [u8], at: usize, channel: u8) -> usize {
        sequence(out, at, channel, self)
    }
}

impl Worded for Option<Window> {
    ghost texts = { window_texts };

    fn say(self, out: &mut [u8], at: usize, channel: u8) -> usize {
        window(out, at, channel, self)
    }
}

// A table's words.
pub fn table<C: Worded + Copy>(out: &mut [u8], at: usize, cells: &[C; CHANNEL_IDS]) -> usize
    ensures { Says out.old at (table_texts C.texts 0 cells.now) result out.new }
{
    let mut behind = at;
    for (channel, cell) in cells.iter().enumerate() {
        behind = cell.say(out, behind, channel as u8);
    }
    behind
}
