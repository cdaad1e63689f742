// The answer of each call as two numbers.
ghost use Rattle.std.specs.Prelude.{◌≡◌};
ghost use Rattle.answer_codes.specs.Codes.{code_of};
ghost use Rattle.nespovarda_station.specs.Outcomes.{started_as, said_as};

use answer_codes::{ANSWERED, Answer, NO_MESSAGE, STARTED, UNASKED, counted, plain, refused};
use quantity::refusal::Refusal;
use radio_end_state::answer;

pub(crate) fn of_start(answer: Result<(), Refusal>) -> Answer
    ensures { result ≡ code_of (started_as answer) }
{
    match answer {
        Ok(()) => plain(STARTED),
        Err(refusal) => refused(refusal),
    }
}

pub(crate) fn of_call(answer: Result<answer::Answer, Refusal>) -> Answer
    ensures { result ≡ code_of (said_as answer) }
{
    match answer {
        Ok(answer::Answer::Answered(bytes)) => counted(ANSWERED, bytes.0),
        Ok(answer::Answer::Unasked(bytes)) => counted(UNASKED, bytes.0),
        Ok(answer::Answer::Quiet) => plain(NO_MESSAGE),
        Err(refusal) => refused(refusal),
    }
}
