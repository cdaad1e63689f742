// Offers by the handful: up to 32 packets in one call, end to end in one buffer, each for its own channel and with its own expiry, one time for all.
//
// A handful comes to what offering its packets one by one in their order comes to, refused ones included, and gives an answer for each: 0 where it is taken, else
// its number of refusal. Number 19 is tested once. Refused as a whole, by 19 or 24, it leaves every word, the memory and the answers as they were.
#![tactic(auto)]

ghost use Rattle.std.specs.Prelude.{◌≡◌};
ghost use Rattle.endpoint.specs.Lent.{lent};
ghost use Rattle.handful.specs.Handful.{HandedIn, refused_handful};

mod each;
mod judged;
mod place;

use crate::judged::Handed;
use ips_words_survey::survey;
use quantity::refusal;
use quantity::refusal::Refusal;

fn refused(number: u8) -> Result<(), Refusal>
    ensures { result ≡ refused_handful number }
{
    Err(Refusal { number, place: 0 })
}

// 19, 24, then each packet as a single offer of it is answered.
pub fn offers(
    words: &mut [u64],
    memory: &mut [u8],
    channels: &[u8],
    expiries: &[u64],
    lengths: &[u64],
    packets: &[u8],
    time: u64,
    answers: &mut [u8],
) -> Result<(), Refusal>
    ensures { HandedIn (record { channels = channels.entry.now; expiries = expiries.now; lengths = lengths.now; packets = packets.now; time = time }) (lent words.old memory.old) answers.old result (lent words.new memory.new) answers.new }
{
    let Some(survey) = survey::survey_words(words, 0) else {
        return refused(refusal::OUTSIDE_LIMITS);
    };
    if survey.total.0 != memory.len() {
        return refused(refusal::OUTSIDE_LIMITS);
    }
    // C lends each list by itself.
    let handed = Handed {
        channels,
        expiries,
        lengths,
        packets,
        time,
    };
    if !judged::is_handful(handed, answers.len()) {
        return refused(refusal::NOT_A_HANDFUL);
    }
    each::offer_each(words, memory, handed, answers);
    Ok(())
}
