// The pacer asked: is a query due, and is the radio silent.
ghost use Rattle.std.specs.Prelude.{◌≡◌, true, cond};
ghost use Rattle.ips_state.specs.Limits.{state_fits};
ghost use Rattle.ips_run.specs.Run as run;
ghost use Rattle.ips_calls.specs.Replies.{of_pace};
ghost use Rattle.ips_words.specs.Words.{state_in};
ghost use Rattle.ips_words_radio.specs.HeardWords.{silenced_words};
ghost use Rattle.endpoint.specs.Calls.{PerformedInWithAny};

use ips_words::head;
use ips_words_survey::survey;
use pacer::PaceAnswer;
use quantity::refusal;
use quantity::refusal::Refusal;

fn fall_silent(words: &mut [u64], silent: bool)
    requires { state_fits (state_in words.old) ≡ true }
    ensures { words.new ≡ cond silent (silenced_words words.old) words.old }
{
    if silent {
        ips_words_radio::silence(words);
    }
}

// 19, then 21. Packets stay waiting, so no memory is asked for.
pub fn pace(words: &mut [u64], time: u64) -> Result<PaceAnswer, Refusal>
    ensures { PerformedInWithAny (run.pace time) words.old (of_pace result) words.new }
{
    survey::judge(words)?;
    let paced = head::pacer(words);
    if pacer::is_earlier(paced, time) {
        return Err(Refusal {
            number: refusal::EARLIER_PACE,
            place: 0,
        });
    }
    let due = pacer::is_due(paced, time);
    let silent = pacer::is_silent(paced, time);
    fall_silent(words, silent);
    head::move_pacer(words, pacer::ask(paced, time));
    pacer::answer(due, silent)
}
