// Offer and Withdraw, on a channel and its store. Number 19 was tested, and the channel found: `Ready` is what that gives.
ghost use Rattle.std.specs.Prelude.{◌≡◌, Ok};
ghost use Rattle.store.specs.Packets.{packet_for};
ghost use Rattle.ips_channel_rules.specs.Rules as rules;
ghost use Rattle.ips_channel_calls.specs.Calls.{offered, withdrawn, Ready, IsLongest, ServesAnywhere, MovesAnywhere};

use crate::outcome::{CallOutcome, refused};
use ips_channel::state;
use ips_channel::state::Channel;
use quantity::count::ByteCount;
use quantity::limit::LONGEST_PACKET;
use quantity::refusal;
use store::waiting;

// The channel then, and how many bytes were moved within the store: nothing is refused here.
#[derive(Clone, Copy)]
pub struct WithdrawOutcome {
    pub channel: Channel,
    pub moved: ByteCount,
}

// How long a packet may be on a store of so many bytes: the smaller of the longest packet and the store.
fn longest_on(size: usize) -> usize
    ensures { IsLongest size result }
{
    size.min(LONGEST_PACKET)
}

// 13 to 16, then the store's own judgement, 17, which changes nothing where it refuses.
pub fn offer(
    channel: Channel,
    store: &mut [u8],
    packet: &[u8],
    expiry: u64,
    time: u64,
) -> CallOutcome<()>
    requires { Ready channel store.old }
    ensures serves_anywhere { ServesAnywhere (rules.offer (packet_for packet.now expiry) time) channel store.old (offered result.answer) result.channel store.new }
    ensures moves_anywhere { MovesAnywhere (rules.offer (packet_for packet.now expiry) time) channel store.old result.moved }
{
    if !ipv6::is_ipv6(packet) {
        return refused(channel, refusal::NOT_IPV6);
    }
    if packet.len() > longest_on(store.len()) {
        return refused(channel, refusal::LONG_PACKET);
    }
    if time < channel.latest {
        return refused(channel, refusal::EARLIER_TIME);
    }
    if expiry <= time {
        return refused(channel, refusal::EXPIRY_PAST);
    }
    let Some(left) = waiting::offer(channel.queue, store, packet, expiry, time) else {
        return refused(channel, refusal::FULL);
    };
    CallOutcome {
        answer: Ok(()),
        channel: state::with_queue(channel, left.queue, time),
        moved: left.moved,
    }
}

// All packets leave; the latest time stays.
pub fn withdraw(channel: Channel, store: &mut [u8]) -> WithdrawOutcome
    requires { Ready channel store.old }
    ensures serves_anywhere { ServesAnywhere rules.withdraw channel store.old (withdrawn (Ok tt)) result.channel store.new }
    ensures moves_anywhere { MovesAnywhere rules.withdraw channel store.old result.moved }
{
    let left = waiting::clear(store);
    WithdrawOutcome {
        channel: state::with_queue(channel, left.queue, channel.latest),
        moved: left.moved,
    }
}
