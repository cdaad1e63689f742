// Query.
ghost use Rattle.ips_run.specs.Run as run;
ghost use Rattle.ips_calls.specs.Replies.{of_query};
ghost use Rattle.endpoint.specs.Calls.{PerformedInWithAny};

use ips_words_survey::survey;
use quantity::count::ByteCount;
use quantity::refusal::Refusal;

// Writes the query: 19, then 18. It changes nothing.
pub fn query(words: &[u64], out: &mut [u8]) -> Result<ByteCount, Refusal>
    ensures { PerformedInWithAny (run.query out.old) words.now (of_query result out.new) words.now }
{
    survey::judge(words)?;
    ips_words_query::write(words, out)
}
