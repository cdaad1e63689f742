// What waits on one channel: its queue by value, and its store as it is lent.
ghost use mathlib.Core.List.{[], tail};
ghost use Rattle.std.specs.Prelude.{IfSome, ◌≡◌, ◌+◌, ◌≤◌, ◌<◌, ◌^◌, length, take, drop};
ghost use Rattle.quantity.specs.Limits.{MOST-WAITING};
ghost use Rattle.store.specs.Packets.{alive, first_bytes, full, joined, packet_for};
ghost use Rattle.store.specs.Moves.{displaced, expiring, sending, offering};
ghost use Rattle.store.specs.Waiting.{waiting, packets_of, Sound, Holds, Offering};
ghost use Rattle.store.specs.Parts.{pasted, appended, entry_for, packets_from, displaced_between, leaving, Left};

use crate::queue::{Amount, Entry, Queue};
use crate::{queue, stretch};
use quantity::count::ByteCount;
use quantity::limit::MOST_WAITING;

// The queue of the packets that stay, and how many bytes were moved for them.
#[derive(Clone, Copy)]
pub struct Remaining {
    pub queue: Queue,
    pub moved: ByteCount,
}

// Where the packets that stay end in the store, and how many bytes were moved for them.
#[derive(Clone, Copy)]
struct Compacted {
    end: usize,
    moved: ByteCount,
}

// The bytes of the packets from an index on that are not expired, moved to the store's start.
fn compact(queue: Queue, store: &mut [u8], index: usize, start: usize, time: u64) -> Compacted
    requires { Left queue store.old index start }
    ensures end_in_bounds { (result.end ≤ length store.old) × (take result.end store.new ≡ joined (alive time (packets_from queue store.old index start))) }
    ensures moved_value { result.moved ≡ record { 0 = displaced_between start 0 (leaving time (drop index (waiting queue))) } }
{
    let mut from = start;
    let mut to = 0;
    let mut moved = 0;
    // By index, as in `queue::keep`.
    for at in index..queue.count {
        let entry = queue.entries[at];
        let next = from + entry.length.0;
        if queue::lasts(entry, time) {
            let written = stretch::move_down(store, from, to, entry.length);
            moved += written.0;
            to += entry.length.0;
        }
        from = next;
    }
    Compacted {
        end: to,
        moved: ByteCount(moved),
    }
}

// The packets from an index on stay that are not expired, all others leave.
fn retain(queue: Queue, store: &mut [u8], index: usize, start: usize, time: u64) -> Remaining
    requires { Left queue store.old index start }
    ensures holds { Holds (length store.old) (alive time (packets_from queue store.old index start)) result.queue store.new }
    ensures moved_value { result.moved ≡ record { 0 = displaced_between start 0 (expiring time (packets_from queue store.old index start)) } }
{
    let compacted = compact(queue, store, index, start, time);
    let end = compacted.end;
    let moved = compacted.moved;
    store[end..].fill(0);
    let queue = queue::keep(queue, index, time);
    Remaining { queue, moved }
}

// Every packet leaves whose expiry is at or before the time.
pub fn expire(queue: Queue, store: &mut [u8], time: u64) -> Remaining
    requires { Sound queue store.old }
    ensures holds { Holds (length store.old) (alive time (packets_of queue store.old)) result.queue store.new }
    ensures moved_value { result.moved ≡ record { 0 = displaced (expiring time (packets_of queue store.old)) } }
{
    retain(queue, store, 0, 0, time)
}

// The expired packets leave, and the first of the others too.
pub fn pop(queue: Queue, store: &mut [u8], time: u64) -> Remaining
    requires { Sound queue store.old }
    ensures holds { Holds (length store.old) (tail (alive time (packets_of queue store.old))) result.queue store.new }
    ensures moved_value { result.moved ≡ record { 0 = displaced (sending time (packets_of queue store.old)) } }
{
    let front = queue::first(queue, time);
    retain(queue, store, front.behind, front.end, time)
}

// The first packet that is not expired, as a stretch of the store; none: an empty stretch.
pub fn peek(queue: Queue, store: &[u8], time: u64) -> &[u8]
    requires { Sound queue store.now }
    ensures { result.now ≡ first_bytes (alive time (packets_of queue store.now)) }
{
    let front = queue::first(queue, time);
    let start = front.start;
    let end = front.end;
    &store[start..end]
}

// All packets leave, so that none is moved.
pub fn clear(store: &mut [u8]) -> Remaining
    ensures holds { Holds (length store.old) [] result.queue store.new }
    ensures moved_value { result.moved ≡ record { 0 = 0 } }
{
    store.fill(0);
    let queue = queue::empty();
    Remaining {
        queue,
        moved: ByteCount(0),
    }
}

// Whether there is no room for one packet more, or none for its bytes.
fn is_full(amount: Amount, bytes: ByteCount, size: ByteCount) -> bool
    requires { amount.bytes.0 + bytes.0 < 2 ^ 64 }
    ensures { result ≡ full amount.packets amount.bytes.0 bytes.0 size.0 }
{
    amount.packets >= MOST_WAITING || amount.bytes.0 + bytes.0 > size.0
}

// A packet joins the end of those that wait.
fn join(queue: Queue, store: &mut [u8], used: ByteCount, packet: &[u8], expiry: u64) -> Queue
    requires { (queue.count < MOST-WAITING) × (used.0 + length packet.now ≤ length store.old) }
    ensures value { result ≡ appended queue (entry_for (length packet.now) expiry) }
    ensures store_after { store.new ≡ pasted store.old used.0 packet.now (length packet.now) }
{
    let start = used.0;
    octets::copy(packet, &mut store[start..]);
    let length = ByteCount(packet.len());
    queue::append(queue, Entry { length, expiry })
}

// The expired packets leave and the packet joins the end; nothing, and nothing changes, where there is no room then.
pub fn offer(
    queue: Queue,
    store: &mut [u8],
    packet: &[u8],
    expiry: u64,
    time: u64,
) -> Option<Remaining>
    requires { Sound queue store.old }
    ensures offering { Offering store.old (alive time (packets_of queue store.old)) (packet_for packet.now expiry) result store.new }
    ensures moved_value { IfSome result (λ left. left.moved ≡ record { 0 = displaced (offering (length store.old) (packet_for packet.now expiry) time (packets_of queue store.old)) }) }
{
    let amount = queue::load(queue, time);
    if is_full(amount, ByteCount(packet.len()), ByteCount(store.len())) {
        return None;
    }
    let left = expire(queue, store, time);
    let queue = join(left.queue, store, amount.bytes, packet, expiry);
    Some(Remaining {
        queue,
        moved: left.moved,
    })
}
