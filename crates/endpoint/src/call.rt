// Offer, Next and Withdraw on the state in lent words.
ghost use Rattle.std.specs.Prelude.{◌≡◌};
ghost use Rattle.store.specs.Packets.{packet_for};
ghost use Rattle.ips_channel_rules.specs.Rules as rules;
ghost use Rattle.ips_channel_calls.specs.Calls.{offered, asked, withdrawn};
ghost use Rattle.ips_run.specs.Run.{on};
ghost use Rattle.ips_calls.specs.Replies.{of_channel};
ghost use Rattle.ips_words_survey.specs.Places.{Located};
ghost use Rattle.endpoint.specs.Lent.{lent, world_in};
ghost use Rattle.endpoint.specs.Calls.{PerformedIn, PerformedInAt, MovedAt};

use crate::channel;
use ips_channel_calls::asking::NextAnswer;
use ips_channel_calls::{asking, offering};
use ips_words::head;
use ips_words_survey::place;
use ips_words_survey::place::Found;
use quantity::count::ByteCount;
use quantity::refusal::Refusal;

// An answer, and how many bytes it says were moved within the store.
#[derive(Clone, Copy)]
pub struct Performed<A> {
    pub answer: Result<A, Refusal>,
    pub moved: ByteCount,
}

// On the channel that was found, with its store lent. Words behind the waiting packets may hold anything, so a refused call saves nothing.
pub fn offer_at(
    words: &mut [u64],
    memory: &mut [u8],
    found: Found,
    packet: &[u8],
    expiry: u64,
    time: u64,
) -> Performed<()>
    requires { Located (world_in (lent words.old memory.old)) found }
    ensures performed_in_at { PerformedInAt (rules.offer (packet_for packet.now expiry) time) (lent words.old memory.old) found.index (offered result.answer) (lent words.new memory.new) }
    ensures moved_at { MovedAt (rules.offer (packet_for packet.now expiry) time) (world_in (lent words.old memory.old)) found.index result.moved }
{
    let start = found.start;
    let before = channel::load(words, found.index);
    let end = start + before.setting.size.0;
    let offered = offering::offer(before, &mut memory[start..end], packet, expiry, time);
    if offered.answer.is_ok() {
        channel::save(words, found.index, offered.channel);
    }
    Performed {
        answer: offered.answer,
        moved: offered.moved,
    }
}

// Offers a packet: 19, 12, then as the channel judges it.
pub fn offer(
    words: &mut [u64],
    memory: &mut [u8],
    id: u8,
    packet: &[u8],
    expiry: u64,
    time: u64,
) -> Result<(), Refusal>
    ensures { PerformedIn (on id (rules.offer (packet_for packet.now expiry) time)) (lent words.old memory.old) (of_channel (offered result)) (lent words.new memory.new) }
{
    match place::find(words, id, memory.len()) {
        Ok(found) => offer_at(words, memory, found, packet, expiry, time).answer,
        Err(number) => Err(Refusal { number, place: 0 }),
    }
}

fn next_at(
    words: &mut [u64],
    memory: &mut [u8],
    found: Found,
    time: u64,
    out: &mut [u8],
) -> Performed<NextAnswer>
    requires { Located (world_in (lent words.old memory.old)) found }
    ensures performed_in_at { PerformedInAt (rules.next time out.old) (lent words.old memory.old) found.index (asked result.answer out.new) (lent words.new memory.new) }
    ensures moved_at { MovedAt (rules.next time out.old) (world_in (lent words.old memory.old)) found.index result.moved }
{
    let start = found.start;
    let datalink = head::setting(words);
    let before = channel::load(words, found.index);
    let end = start + before.setting.size.0;
    let asked = asking::next(before, &mut memory[start..end], datalink, time, out);
    if asked.answer.is_ok() {
        channel::save(words, found.index, asked.channel);
    }
    Performed {
        answer: asked.answer,
        moved: asked.moved,
    }
}

// Asks for the next packet's message: 19, 12, then as the channel answers.
pub fn next(
    words: &mut [u64],
    memory: &mut [u8],
    id: u8,
    time: u64,
    out: &mut [u8],
) -> Result<NextAnswer, Refusal>
    ensures { PerformedIn (on id (rules.next time out.old)) (lent words.old memory.old) (of_channel (asked result out.new)) (lent words.new memory.new) }
{
    match place::find(words, id, memory.len()) {
        Ok(found) => next_at(words, memory, found, time, out).answer,
        Err(number) => Err(Refusal { number, place: 0 }),
    }
}

fn withdraw_at(words: &mut [u64], memory: &mut [u8], found: Found) -> Performed<()>
    requires { Located (world_in (lent words.old memory.old)) found }
    ensures performed_in_at { PerformedInAt rules.withdraw (lent words.old memory.old) found.index (withdrawn result.answer) (lent words.new memory.new) }
    ensures moved_at { MovedAt rules.withdraw (world_in (lent words.old memory.old)) found.index result.moved }
{
    let start = found.start;
    let before = channel::load(words, found.index);
    let end = start + before.setting.size.0;
    let emptied = offering::withdraw(before, &mut memory[start..end]);
    channel::save(words, found.index, emptied.channel);
    Performed {
        answer: Ok(()),
        moved: emptied.moved,
    }
}

// Withdraws all packets that wait on a channel: 19, 12.
pub fn withdraw(words: &mut [u64], memory: &mut [u8], id: u8) -> Result<(), Refusal>
    ensures { PerformedIn (on id rules.withdraw) (lent words.old memory.old) (of_channel (withdrawn result)) (lent words.new memory.new) }
{
    match place::find(words, id, memory.len()) {
        Ok(found) => withdraw_at(words, memory, found).answer,
        Err(number) => Err(Refusal { number, place: 0 }),
    }
}
