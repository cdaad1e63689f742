// Query on words: the IPS control message with a Flow Sequence for each flow-controlled channel, written without a table of Channel IDs.
#![tactic(auto)]

ghost use Rattle.std.specs.Prelude.{◌≡◌, true};
ghost use Rattle.writer.specs.Written.{control_written, Outcome};
ghost use Rattle.ips_state.specs.Limits.{state_fits};
ghost use Rattle.ips_query.specs.Query.{query_of};
ghost use Rattle.ips_words.specs.Words.{state_in};

use ips_words::head;
use quantity::count::ByteCount;
use quantity::limit::MOST_CHANNELS;
use quantity::refusal;
use quantity::refusal::Refusal;
use writer::answer;

mod lay;
mod order;

// 18 is judged before a byte is touched; what it writes is always allowed.
pub fn write(words: &[u64], out: &mut [u8]) -> Result<ByteCount, Refusal>
    requires { state_fits (state_in words.now) ≡ true }
    ensures { Outcome true (control_written (query_of (state_in words.now))) out.old result out.new }
{
    let mut contents = [0u64; MOST_CHANNELS];
    let count = order::gather(words, &mut contents);
    if answer::no_room(lay::size(count), out.len()) {
        return answer::refused(refusal::NO_ROOM);
    }
    Ok(ByteCount(lay::lay(out, head::datalink(words), &contents[0..count])))
}
