// The waiting queue of one channel: the length and the expiry of each packet, in the order of the store.
ghost use Rattle.std.specs.Prelude.{[], ◌≡◌, ◌≤◌, ◌<◌, drop};
ghost use Rattle.quantity.specs.Limits.{MOST-WAITING};
ghost use Rattle.store.specs.Packets.{lasts_at};
ghost use Rattle.store.specs.Waiting.{waiting, listed, queue_of};
ghost use Rattle.store.specs.Parts.{kept, appended, amount_of, Countable, IsFirst};

use quantity::count::ByteCount;
use quantity::limit::MOST_WAITING;

#[derive(Clone, Copy)]
pub struct Entry {
    pub length: ByteCount,
    pub expiry: u64,
}

// By value, an array of 32 entries with a count beside it: document 01's form for "at most 32 packets waiting on a channel".
#[derive(Clone, Copy)]
pub struct Queue {
    pub entries: [Entry; MOST_WAITING],
    pub count: usize,
}

// How many packets, and how many bytes.
#[derive(Clone, Copy)]
pub struct Amount {
    pub packets: usize,
    pub bytes: ByteCount,
}

// A packet's stretch of the store, and the index behind its entry.
#[derive(Clone, Copy)]
pub(crate) struct Front {
    pub start: usize,
    pub end: usize,
    pub behind: usize,
}

// The queue with nothing waiting.
pub fn empty() -> Queue
    ensures { result ≡ queue_of [] }
{
    let none = Entry {
        length: ByteCount(0),
        expiry: 0,
    };
    let entries = [none; MOST_WAITING];
    Queue { entries, count: 0 }
}

// Whether a packet is not expired yet.
pub(crate) fn lasts(entry: Entry, time: u64) -> bool
    ensures { result ≡ lasts_at time entry.expiry }
{
    time < entry.expiry
}

// One entry more.
pub(crate) fn append(queue: Queue, entry: Entry) -> Queue
    requires { queue.count < MOST-WAITING }
    ensures { result ≡ appended queue entry }
{
    let count = queue.count;
    let mut longer = queue;
    longer.entries[count] = entry;
    longer.count = count + 1;
    longer
}

// The entries from an index on that are not expired, in their order.
// Each is stored in place: `append` would copy the queue at each turn.
pub(crate) fn keep(queue: Queue, index: usize, time: u64) -> Queue
    requires { queue.count ≤ MOST-WAITING }
    ensures { result ≡ listed (kept time (drop index (waiting queue))) }
{
    let mut left = empty();
    // By index here and below: entries lent as a slice have a queue that is held by value copied first.
    for at in index..queue.count {
        let entry = queue.entries[at];
        if lasts(entry, time) {
            let kept = left.count;
            left.entries[kept] = entry;
            left.count = kept + 1;
        }
    }
    left
}

// How many packets wait that are not expired, and their bytes.
pub fn load(queue: Queue, time: u64) -> Amount
    requires { Countable queue }
    ensures { result ≡ amount_of (kept time (waiting queue)) }
{
    let mut packets = 0;
    let mut bytes = 0;
    for at in 0..queue.count {
        let entry = queue.entries[at];
        if lasts(entry, time) {
            packets += 1;
            bytes += entry.length.0;
        }
    }
    Amount {
        packets,
        bytes: ByteCount(bytes),
    }
}

// The first packet that is not expired; none: an empty stretch behind all.
pub(crate) fn first(queue: Queue, time: u64) -> Front
    requires { Countable queue }
    ensures { IsFirst queue time result }
{
    let mut start = 0;
    for at in 0..queue.count {
        let entry = queue.entries[at];
        let end = start + entry.length.0;
        if lasts(entry, time) {
            return Front {
                start,
                end,
                behind: at + 1,
            };
        }
        start = end;
    }
    Front {
        start,
        end: start,
        behind: queue.count,
    }
}
