// Offers by the handful, on a state in lent words.
ghost use Rattle.endpoint.specs.Lent.{lent};
ghost use Rattle.nespovarda.specs.Handing.{HandfulExported};

use crate::answer;
use answer_codes::Answer;

// `OFFERED`, and an answer for each packet: 0 where it is taken, else its number of refusal; or 19, 24, and every answer as it was.
pub fn nespovarda_offers(
    words: &mut [u64],
    memory: &mut [u8],
    channels: &[u8],
    expiries: &[u64],
    lengths: &[u64],
    packets: &[u8],
    time: u64,
    answers: &mut [u8],
) -> Answer
    ensures { HandfulExported (record { channels = channels.entry.now; expiries = expiries.now; lengths = lengths.now; packets = packets.now; time = time }) (lent words.old memory.old) answers.old result (lent words.new memory.new) answers.new }
{
    answer::of_handful(handful::offers(
        words, memory, channels, expiries, lengths, packets, time, answers,
    ))
}
