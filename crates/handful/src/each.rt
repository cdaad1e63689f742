// The packets of a handful, offered one by one. Numbers 19 and 24 were tested, and 19 holds on.
ghost use Rattle.std.specs.Prelude.{◌≡◌, true};
ghost use Rattle.ips_channel_calls.specs.Calls.{offered, number_of};
ghost use Rattle.ips_state.specs.Memory.{world_fits};
ghost use Rattle.ips_calls.specs.Replies.{of_channel};
ghost use Rattle.endpoint.specs.Lent.{lent, world_in};
ghost use Rattle.endpoint.specs.Calls.{PerformedIn};
ghost use Rattle.handful.specs.Handful.{offer_for, call_of};
ghost use Rattle.handful.specs.Offering.{handful_in, moved_in, Tested, OfferedEach};

use crate::judged::Handed;
use crate::place;
use endpoint::call;
use endpoint::call::Performed;
use ips_words::waiting;
use quantity::count::ByteCount;
use quantity::refusal::Refusal;

// The byte for a packet that is taken; a refusal's is its number.
const TAKEN: u8 = 0;

fn number_of(answer: Result<(), Refusal>) -> u8
    ensures { result ≡ number_of answer }
{
    match answer {
        Ok(()) => TAKEN,
        Err(refusal) => refusal.number,
    }
}

// One packet for its channel: 12, then as the channel judges it.
fn offer_one(
    words: &mut [u64],
    memory: &mut [u8],
    id: u8,
    packet: &[u8],
    expiry: u64,
    time: u64,
) -> Performed<()>
    requires { world_fits (world_in (lent words.old memory.old)) ≡ true }
    ensures performed_in { PerformedIn (call_of time (offer_for id expiry packet.now)) (lent words.old memory.old) (of_channel (offered result.answer)) (lent words.new memory.new) }
    ensures moved_value { result.moved ≡ record { 0 = moved_in time (offer_for id expiry packet.now) (world_in (lent words.old memory.old)) } }
{
    match place::locate(words, id) {
        Ok(found) => call::offer_at(words, memory, found, packet, expiry, time),
        Err(number) => Performed {
            answer: Err(Refusal { number, place: 0 }),
            moved: ByteCount(0),
        },
    }
}

// How many bytes were moved within the stores.
pub(crate) fn offer_each(
    words: &mut [u64],
    memory: &mut [u8],
    handed: Handed<'_>,
    answers: &mut [u8],
) -> ByteCount
    requires { Tested (handful_in handed) (lent words.old memory.old) answers.old }
    ensures { OfferedEach (handful_in handed.entry) (lent words.old memory.old) result (lent words.new memory.new) answers.new }
{
    let mut moved: usize = 0;
    let mut from: usize = 0;
    for (at, id) in handed.channels.iter().enumerate() {
        let end = from + waiting::narrow(handed.lengths[at]);
        let packet = &handed.packets[from..end];
        let one = offer_one(words, memory, *id, packet, handed.expiries[at], handed.time);
        answers[at] = number_of(one.answer);
        moved += one.moved.0;
        from = end;
    }
    ByteCount(moved)
}
