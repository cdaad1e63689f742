// The answer to `offers`.
ghost use Rattle.std.specs.Prelude.{◌≡◌};
ghost use Rattle.message_words.specs.Saying.{Says};
ghost use Rattle.ips_channel_calls.specs.Calls.{answer_of};
ghost use Rattle.session_print.specs.Answers.{another_texts, offers_texts};

use crate::answers::offered;
use quantity::refusal::Refusal;
use text::put;

// The answer that a byte says.
fn answer_of(number: u8) -> Result<(), Refusal>
    ensures { result ≡ answer_of number }
{
    if number == 0 {
        return Ok(());
    }
    Err(Refusal { number, place: 0 })
}

fn another(out: &mut [u8], at: usize, number: u8) -> usize
    ensures { Says out.old at (another_texts number) result out.new }
{
    let behind = put(out, at, b" ");
    offered(out, behind, answer_of(number))
}

// A handful that isn't refused as a whole, with a byte for each packet: 0 where it is taken, else its number of refusal.
pub fn handed(out: &mut [u8], at: usize, answers: &[u8]) -> usize
    ensures { Says out.old at (offers_texts answers.now) result out.new }
{
    let mut behind = put(out, at, b"offered");
    for number in answers {
        behind = another(out, behind, *number);
    }
    behind
}
