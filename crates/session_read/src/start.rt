// What the numbers of a `start` line are: how long the lent memory is, and how many words its configuration has.
ghost use Rattle.std.specs.Prelude.{◌≡◌, ◌+◌, ◌<◌};
ghost use Rattle.session_read.specs.Lines.{PLACES, numbers_in, start_by, Bounded, StartFits};
ghost use Rattle.session_read.specs.Start.{SAID-COUNT, perhaps, stores_of, memory_place, memory_of, start_from, no_start};

use crate::table::{PLACES, START};
use ips_words_start::layout::{CONFIGURATION_HEAD, CONFIGURATION_SLOT, START_SIZE};

// Where the numbers of the line stand: four for each channel behind ID and COUNT.
pub(crate) const SAID_ID: usize = 0;

pub(crate) const SAID_COUNT: usize = 1;

pub(crate) const SAID_CHANNELS: usize = 2;

// How many words the line's configuration has, how many channels, and how long the lent memory is.
#[derive(Clone, Copy)]
pub struct StartWords {
    pub words: usize,
    pub channels: usize,
    pub memory: usize,
}

// The number so far behind a keyword that the line may say or not, or the usual one.
pub(crate) fn perhaps(n: &[u64; PLACES], keyword: usize, behind: usize, usual: u64) -> u64
    requires { keyword + behind < PLACES }
    ensures { result ≡ perhaps (numbers_in n.now) keyword behind usual }
{
    if n[keyword] == 1 {
        return n[keyword + behind];
    }
    usual
}

// Where `memory` is said or not: behind the channels.
pub(crate) fn memory_place(n: &[u64; PLACES]) -> usize
    requires { StartFits (numbers_in n.now) }
    ensures { result ≡ memory_place (numbers_in n.now) }
{
    SAID_CHANNELS + CONFIGURATION_SLOT * n[SAID_COUNT] as usize
}

// The length of all stores together.
fn stores(n: &[u64; PLACES]) -> usize
    requires { StartFits (numbers_in n.now) }
    ensures { result ≡ stores_of (numbers_in n.now) (numbers_in n.now SAID-COUNT) }
{
    let count = n[SAID_COUNT] as usize;
    let mut total: usize = 0;
    for index in 0..count {
        let from = SAID_CHANNELS + CONFIGURATION_SLOT * index;
        total += n[from + START_SIZE] as usize;
    }
    total
}

// The length of the lent memory.
fn memory(n: &[u64; PLACES]) -> usize
    requires { StartFits (numbers_in n.now) }
    ensures { result ≡ memory_of (numbers_in n.now) }
{
    perhaps(n, memory_place(n), 1, stores(n) as u64) as usize
}

fn started(n: &[u64; PLACES]) -> StartWords
    requires { StartFits (numbers_in n.now) }
    ensures { result ≡ start_from (numbers_in n.now) }
{
    let channels = n[SAID_COUNT] as usize;
    StartWords {
        words: CONFIGURATION_HEAD + CONFIGURATION_SLOT * channels,
        channels,
        memory: memory(n),
    }
}

fn not_started() -> StartWords
    ensures { result ≡ no_start }
{
    StartWords {
        words: 0,
        channels: 0,
        memory: 0,
    }
}

// What `start` says with its numbers; nothing for another command.
pub(crate) fn starts(key: u64, n: &[u64; PLACES]) -> StartWords
    requires { Bounded key n.now }
    ensures { result ≡ start_by key (numbers_in n.now) }
{
    if key == START {
        return started(n);
    }
    not_started()
}
