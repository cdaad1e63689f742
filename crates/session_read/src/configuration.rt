// The words of the configuration that a `start` line says: HelloTime, silence limit and the statuses' setting stand before the channels, and are said behind them.
ghost use Rattle.std.specs.Prelude.{◌≡◌, ◌+◌, ◌<◌, [], ◌∷◌, ◌++◌, length, drop};
ghost use Rattle.line_rows.specs.Rows.{over};
ghost use Rattle.ips_words_start.specs.Start.{CONFIGURATION-HEAD};
ghost use Rattle.session_read.specs.Lines.{PLACES, CONFIGURATION-WORDS, numbers_in, StartFits};
ghost use Rattle.session_read.specs.Start.{behind_keyword, pace_place, codes_of, configuration_from};

use crate::start::{SAID_CHANNELS, SAID_COUNT, SAID_ID, memory_place, perhaps};
use crate::table::{MOST_SETTINGS, PLACES};
use crate::words::lay;
use ips_words_start::layout::{
    CONFIGURATION_HEAD, CONFIGURATION_SLOT, CONFIGURED_CODES, CONFIGURED_COUNT,
    CONFIGURED_DATALINK, CONFIGURED_HELLO, CONFIGURED_LIMIT,
};

// No line says a configuration of more words.
pub const CONFIGURATION_WORDS: usize = CONFIGURATION_HEAD
    + CONFIGURATION_SLOT * MOST_SETTINGS as usize;

// HelloTime and silence limit where the line says none.
const USUAL_HELLO: u64 = 5000;

const USUAL_LIMIT: u64 = 9000;

// None of the statuses 8 to 15 is operational.
const USUAL_CODES: u64 = 0;

// The place behind a keyword, and behind so many numbers where it is said.
fn behind(n: &[u64; PLACES], keyword: usize, numbers: usize) -> usize
    requires { keyword + 1 + numbers < PLACES }
    ensures { result ≡ behind_keyword (numbers_in n.now) keyword numbers }
{
    if n[keyword] == 1 {
        return keyword + 1 + numbers;
    }
    keyword + 1
}

// Where `pace` is said or not: behind `memory`, and behind its length where that is said.
fn pace_place(n: &[u64; PLACES]) -> usize
    requires { StartFits (numbers_in n.now) }
    ensures { result ≡ pace_place (numbers_in n.now) }
{
    behind(n, memory_place(n), 1)
}

// Which of the statuses 8 to 15 are operational: said behind `pace` and its two numbers.
fn codes(n: &[u64; PLACES]) -> u64
    requires { StartFits (numbers_in n.now) }
    ensures { result ≡ codes_of (numbers_in n.now) }
{
    let place = behind(n, pace_place(n), 2);
    perhaps(n, place, 1, USUAL_CODES)
}

fn write_head(
    words: &mut [u64; CONFIGURATION_WORDS],
    datalink: u64,
    count: u64,
    hello: u64,
    limit: u64,
    codes: u64,
)
    requires { length words.old ≡ CONFIGURATION-WORDS }
    ensures { words.new ≡ (datalink ∷ count ∷ hello ∷ limit ∷ codes ∷ []) ++ drop CONFIGURATION-HEAD words.old }
{
    words[CONFIGURED_DATALINK] = datalink;
    words[CONFIGURED_COUNT] = count;
    words[CONFIGURED_HELLO] = hello;
    words[CONFIGURED_LIMIT] = limit;
    words[CONFIGURED_CODES] = codes;
}

// The configuration stands at the start of the lent words, which are as they were behind it.
pub(crate) fn configure(n: &[u64; PLACES], words: &mut [u64; CONFIGURATION_WORDS])
    requires start_fits { StartFits (numbers_in n.now) }
    requires words_len { length words.old ≡ CONFIGURATION-WORDS }
    ensures { words.new ≡ over (configuration_from (numbers_in n.now)) words.old }
{
    let codes = codes(n);
    let pace = pace_place(n);
    let hello = perhaps(n, pace, 1, USUAL_HELLO);
    let limit = perhaps(n, pace, 2, USUAL_LIMIT);
    write_head(words, n[SAID_ID], n[SAID_COUNT], hello, limit, codes);
    // The numbers of the channels are their words.
    lay(
        words,
        CONFIGURATION_HEAD,
        n,
        SAID_CHANNELS,
        CONFIGURATION_SLOT * n[SAID_COUNT] as usize,
    );
}
