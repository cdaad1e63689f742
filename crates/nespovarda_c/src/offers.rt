// What C calls of `nespovarda::offers`: each call of it under the same clauses.
ghost use Rattle.endpoint.specs.Lent.{lent};
ghost use Rattle.nespovarda.specs.Handing.{HandfulExported};

use answer_codes::Answer;

#[unsafe(no_mangle)]
pub extern "C" fn nespovarda_offers(
    words: &mut [u64],
    memory: &mut [u8],
    channels: &[u8],
    expiries: &[u64],
    lengths: &[u64],
    packets: &[u8],
    time: u64,
    answers: &mut [u8],
) -> Answer
    ensures { HandfulExported (record { channels = channels.entry.now; expiries = expiries.now; lengths = lengths.now; packets = packets.now; time = time }) (lent words.old memory.old) answers.old result (lent words.new memory.new) answers.new }
{
    nespovarda::offers::nespovarda_offers(
        words, memory, channels, expiries, lengths, packets, time, answers,
    )
}
