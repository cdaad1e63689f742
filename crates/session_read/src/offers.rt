// What the numbers of an `offers` line are: how long each of its lists is, and the three lists of numbers.
ghost use Rattle.std.specs.Prelude.{◌≡◌, length};
ghost use Rattle.line_rows.specs.Rows.{over};
ghost use Rattle.session_read.specs.Lines.{CONFIGURATION-WORDS, numbers_in, OffersFit};
ghost use Rattle.session_read.specs.Offers.{counts_from, lists_from};

use crate::configuration::CONFIGURATION_WORDS;
use crate::table::{MOST_SETTINGS, PLACES};
use crate::words::lay;

// No list has more numbers.
pub const MOST_LISTED: usize = MOST_SETTINGS as usize;

pub(crate) const SAID_TIME: usize = 0;

// Where each count would stand if the lists before it were empty.
const SAID_CHANNELS: usize = 2;

const SAID_EXPIRIES: usize = 4;

const SAID_LENGTHS: usize = 6;

const SAID_ANSWERS: usize = 8;

// How long each list of a handful is. The numbers of the first three stand one list behind the other.
#[derive(Clone, Copy)]
pub struct ListCounts {
    pub channels: usize,
    pub expiries: usize,
    pub lengths: usize,
    pub answers: usize,
}

pub(crate) fn counts(n: &[u64; PLACES]) -> ListCounts
    requires { OffersFit (numbers_in n.now) }
    ensures { result ≡ counts_from (numbers_in n.now) }
{
    let channels = n[SAID_CHANNELS] as usize;
    let expiries = n[SAID_EXPIRIES + channels] as usize;
    let lengths = n[SAID_LENGTHS + channels + expiries] as usize;
    let answers = n[SAID_ANSWERS + channels + expiries + lengths] as usize;
    ListCounts {
        channels,
        expiries,
        lengths,
        answers,
    }
}

// The lists stand at the start of the lent words, which are as they were behind them.
pub(crate) fn lay_lists(n: &[u64; PLACES], words: &mut [u64; CONFIGURATION_WORDS])
    requires offers_fit { OffersFit (numbers_in n.now) }
    requires words_len { length words.old ≡ CONFIGURATION-WORDS }
    ensures { words.new ≡ over (lists_from (numbers_in n.now)) words.old }
{
    let counts = counts(n);
    let two = counts.channels + counts.expiries;
    lay(words, 0, n, SAID_CHANNELS + 1, counts.channels);
    lay(
        words,
        counts.channels,
        n,
        SAID_EXPIRIES + counts.channels + 1,
        counts.expiries,
    );
    lay(words, two, n, SAID_LENGTHS + two + 1, counts.lengths);
}
