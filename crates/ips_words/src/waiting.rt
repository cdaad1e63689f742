// The waiting packets of one channel in its words: behind the fixed ones a length and an expiry for each of 32 places.
ghost use Rattle.std.specs.Prelude.{◌≡◌, ◌++◌, ◌≤◌, length, take};
ghost use Rattle.quantity.specs.Limits.{MOST-WAITING};
ghost use Rattle.ips_words.specs.Words.{FIXED, SLOT, WAITING, word, queue_in, entry_words};

use crate::layout;
use crate::layout::{ENTRY, EXPIRY, FIXED};
use quantity::count::ByteCount;
use store::queue;
use store::queue::{Entry, Queue};

// A length has 64 bits, as a word.
pub fn narrow(value: u64) -> usize
    ensures { result ≡ value }
{
    value as usize
}

pub fn wide(value: usize) -> u64
    ensures { result ≡ value }
{
    value as u64
}

// The words behind the waiting packets are not looked at.
pub(crate) fn load(part: &[u64]) -> Queue
    requires { (length part.now ≡ SLOT) × (word part.now WAITING ≤ MOST-WAITING) }
    ensures { result ≡ queue_in part.now }
{
    let mut left = queue::empty();
    let count = narrow(part[layout::WAITING]);
    for at in 0..count {
        let from = FIXED + ENTRY * at;
        left.entries[at] = Entry {
            length: ByteCount(narrow(part[from])),
            expiry: part[from + EXPIRY],
        };
    }
    left.count = count;
    left
}

pub(crate) fn save(part: &mut [u64], queue: Queue)
    requires { length part.old ≡ SLOT }
    ensures { part.new ≡ take FIXED part.old ++ entry_words queue.entries }
{
    for (at, entry) in queue.entries.iter().enumerate() {
        let from = FIXED + ENTRY * at;
        part[from] = wide(entry.length.0);
        part[from + EXPIRY] = entry.expiry;
    }
}
