// The calls on a state in lent words.
ghost use Rattle.std.specs.Prelude.{[], ◌≡◌};
ghost use Rattle.store.specs.Packets.{packet_for};
ghost use Rattle.ips_channel_rules.specs.Rules as rules;
ghost use Rattle.ips_run.specs.Run.{on};
ghost use Rattle.ips_run.specs.Run as run;
ghost use Rattle.endpoint.specs.Lent.{lent};
ghost use Rattle.endpoint.specs.Shown.{words_needed};
ghost use Rattle.nespovarda.specs.Exports.{Exported, ExportedWithAny, StartExported};

use crate::answer;
use answer_codes::{Answer, of_write};
use ips_words::waiting;

// How many words a state of so many channels asks for; 0 where no state has so many.
pub fn nespovarda_words(channels: u64) -> u64
    ensures { result ≡ words_needed channels }
{
    waiting::wide(endpoint::words_for(waiting::narrow(channels)))
}

pub fn nespovarda_start(words: &mut [u64], memory: &mut [u8], configuration: &[u64]) -> Answer
    ensures { StartExported configuration.now words.old memory.old result words.new memory.new }
{
    answer::of_start(endpoint::start(words, memory, configuration))
}

pub fn nespovarda_offer(
    words: &mut [u64],
    memory: &mut [u8],
    channel: u8,
    packet: &[u8],
    expiry: u64,
    time: u64,
) -> Answer
    ensures { Exported (on channel (rules.offer (packet_for packet.now expiry) time)) (lent words.old memory.old) result [] (lent words.new memory.new) }
{
    answer::of_offer(endpoint::offer(words, memory, channel, packet, expiry, time))
}

pub fn nespovarda_next(
    words: &mut [u64],
    memory: &mut [u8],
    channel: u8,
    time: u64,
    out: &mut [u8],
) -> Answer
    ensures { Exported (on channel (rules.next time out.old)) (lent words.old memory.old) result out.new (lent words.new memory.new) }
{
    answer::of_next(endpoint::next(words, memory, channel, time, out))
}

pub fn nespovarda_withdraw(words: &mut [u64], memory: &mut [u8], channel: u8) -> Answer
    ensures { Exported (on channel rules.withdraw) (lent words.old memory.old) result [] (lent words.new memory.new) }
{
    answer::of_withdraw(endpoint::withdraw(words, memory, channel))
}

pub fn nespovarda_radio(words: &mut [u64], time: u64, datagram: &[u8]) -> Answer
    ensures { ExportedWithAny (run.radio time datagram.now) words.old result [] words.new }
{
    answer::of_radio(endpoint::hand_in(words, time, datagram))
}

pub fn nespovarda_pace(words: &mut [u64], time: u64) -> Answer
    ensures { ExportedWithAny (run.pace time) words.old result [] words.new }
{
    answer::of_pace(endpoint::pace(words, time))
}

pub fn nespovarda_query(words: &[u64], out: &mut [u8]) -> Answer
    ensures { ExportedWithAny (run.query out.old) words.now result out.new words.now }
{
    of_write(endpoint::query(words, out))
}
