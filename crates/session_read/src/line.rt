// A line, read.
ghost use Rattle.std.specs.Prelude.{◌≡◌, length};
ghost use Rattle.line_rows.specs.Rows.{over};
ghost use Rattle.session_read.specs.Lines.{CONFIGURATION-WORDS, words_by, numbers_in, Asks, Bounded};

use crate::asked::{Asked, asks};
use crate::configuration::{CONFIGURATION_WORDS, configure};
use crate::offers::lay_lists;
use crate::start::{StartWords, starts};
use crate::table::{COMMANDS, OFFERS, PLACES, START};

// What a line asks for, how many bytes it says, and what its numbers are if it is a `start`.
#[derive(Clone, Copy)]
pub struct Line {
    pub asked: Asked,
    pub bytes: usize,
    pub start: StartWords,
}

// The words that a line says: the configuration of a `start`, the lists of an `offers`.
fn lay_words(key: u64, n: &[u64; PLACES], words: &mut [u64; CONFIGURATION_WORDS])
    requires bounded { Bounded key n.now }
    requires words_len { length words.old ≡ CONFIGURATION-WORDS }
    ensures { words.new ≡ over (words_by key (numbers_in n.now)) words.old }
{
    if key == START {
        return configure(n, words);
    }
    if key == OFFERS {
        lay_lists(n, words);
    }
}

// Reads a line. The words that it says stand at the start of the lent words, zeros behind them; the bytes that it says stand at the start of
// the lent memory.
pub fn read(line: &[u8], words: &mut [u64; CONFIGURATION_WORDS], lent: &mut [u8]) -> Line
    ensures { Asks lent.old line.now result words.new lent.new }
{
    *words = [0u64; CONFIGURATION_WORDS];
    let mut numbers = [0u64; PLACES];
    let told = line_rows::read(line_rows::shortened(line), &COMMANDS, &mut numbers, lent);
    let asked = asks(told.key, &numbers);
    let start = starts(told.key, &numbers);
    lay_words(told.key, &numbers, words);
    Line {
        asked,
        bytes: told.bytes,
        start,
    }
}
