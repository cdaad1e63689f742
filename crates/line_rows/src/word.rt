// What one word says.
ghost use Rattle.std.specs.Prelude.{◌≡◌};
ghost use Rattle.line_rows.specs.Rows.{spells_of, choice_of};
ghost use Rattle.line_rows.specs.Cursors.{ValueSaid};

use crate::{BYTES, NUMBER, OPTIONAL};

// Whether a word is a keyword.
pub(crate) fn spells(word: &[u8], key: u64) -> bool
    ensures { result ≡ spells_of word.now key }
{
    let mut left = key;
    for byte in word {
        if left == 0 {
            return false;
        }
        if u64::from(*byte) != left % 256 {
            return false;
        }
        left = left / 256;
    }
    left == 0
}

// Which of two keywords a word is.
fn choice(word: &[u8], first: u64, second: u64) -> Option<u64>
    ensures { result ≡ choice_of first second word.now }
{
    if spells(word, first) {
        return Some(0);
    }
    if spells(word, second) {
        return Some(1);
    }
    None
}

// The number that a word says; a byte string is laid at the start of the lent memory.
pub(crate) fn value(word: &[u8], a: u64, b: u64, lent: &mut [u8]) -> Option<u64>
    ensures { ValueSaid a b lent.old word.now result lent.new }
{
    if a == NUMBER {
        return text::parse(word, b);
    }
    if a == BYTES {
        let n = text::unhex(word, lent)?;
        return Some(n as u64);
    }
    if a == OPTIONAL {
        if spells(word, b) {
            return Some(1);
        }
        return Some(0);
    }
    choice(word, a, b)
}
