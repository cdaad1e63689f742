// What C calls of `nespovarda::calls`: each call of it under the same clauses.
ghost use Rattle.std.specs.Prelude.{[], ◌≡◌};
ghost use Rattle.store.specs.Packets.{packet_for};
ghost use Rattle.ips_channel_rules.specs.Rules as rules;
ghost use Rattle.ips_run.specs.Run.{on};
ghost use Rattle.ips_run.specs.Run as run;
ghost use Rattle.endpoint.specs.Lent.{lent};
ghost use Rattle.endpoint.specs.Shown.{words_needed};
ghost use Rattle.nespovarda.specs.Exports.{Exported, ExportedWithAny, StartExported};

use answer_codes::Answer;

#[unsafe(no_mangle)]
pub extern "C" fn nespovarda_words(channels: u64) -> u64
    ensures { result ≡ words_needed channels }
{
    nespovarda::calls::nespovarda_words(channels)
}

#[unsafe(no_mangle)]
pub extern "C" fn nespovarda_start(
    words: &mut [u64],
    memory: &mut [u8],
    configuration: &[u64],
) -> Answer
    ensures { StartExported configuration.now words.old memory.old result words.new memory.new }
{
    nespovarda::calls::nespovarda_start(words, memory, configuration)
}

#[unsafe(no_mangle)]
pub extern "C" fn nespovarda_offer(
    words: &mut [u64],
    memory: &mut [u8],
    channel: u8,
    packet: &[u8],
    expiry: u64,
    time: u64,
) -> Answer
    ensures { Exported (on channel (rules.offer (packet_for packet.now expiry) time)) (lent words.old memory.old) result [] (lent words.new memory.new) }
{
    nespovarda::calls::nespovarda_offer(words, memory, channel, packet, expiry, time)
}

#[unsafe(no_mangle)]
pub extern "C" fn nespovarda_next(
    words: &mut [u64],
    memory: &mut [u8],
    channel: u8,
    time: u64,
    out: &mut [u8],
) -> Answer
    ensures { Exported (on channel (rules.next time out.old)) (lent words.old memory.old) result out.new (lent words.new memory.new) }
{
    nespovarda::calls::nespovarda_next(words, memory, channel, time, out)
}

#[unsafe(no_mangle)]
pub extern "C" fn nespovarda_withdraw(words: &mut [u64], memory: &mut [u8], channel: u8) -> Answer
    ensures { Exported (on channel rules.withdraw) (lent words.old memory.old) result [] (lent words.new memory.new) }
{
    nespovarda::calls::nespovarda_withdraw(words, memory, channel)
}

#[unsafe(no_mangle)]
pub extern "C" fn nespovarda_radio(words: &mut [u64], time: u64, datagram: &[u8]) -> Answer
    ensures { ExportedWithAny (run.radio time datagram.now) words.old result [] words.new }
{
    nespovarda::calls::nespovarda_radio(words, time, datagram)
}

#[unsafe(no_mangle)]
pub extern "C" fn nespovarda_pace(words: &mut [u64], time: u64) -> Answer
    ensures { ExportedWithAny (run.pace time) words.old result [] words.new }
{
    nespovarda::calls::nespovarda_pace(words, time)
}

#[unsafe(no_mangle)]
pub extern "C" fn nespovarda_query(words: &[u64], out: &mut [u8]) -> Answer
    ensures { ExportedWithAny (run.query out.old) words.now result out.new words.now }
{
    nespovarda::calls::nespovarda_query(words, out)
}
