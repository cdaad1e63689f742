// The answer of each call as two numbers.
ghost use Rattle.std.specs.Prelude.{◌≡◌};
ghost use Rattle.answer_codes.specs.Codes.{code_of};
ghost use Rattle.nespovarda.specs.Outcomes.{started_as, offered_as, asked_as, withdrawn_as, heard_as, paced_as, handed_as};

use answer_codes::{
    ACCEPTED, Answer, DUE, NOT_OPERATIONAL, NOTHING_WAITING, OFFERED, QUERY_DUE, QUERY_DUE_SILENT,
    QUIET, SENT, SILENT, STARTED, TAKEN, WINDOW_SHUT, WITHDRAWN, counted, plain, refused,
};
use endpoint::{NextAnswer, PaceAnswer, RadioAnswer};
use quantity::refusal::Refusal;

pub(crate) fn of_start(answer: Result<(), Refusal>) -> Answer
    ensures { result ≡ code_of (started_as answer) }
{
    match answer {
        Ok(()) => plain(STARTED),
        Err(refusal) => refused(refusal),
    }
}

pub(crate) fn of_offer(answer: Result<(), Refusal>) -> Answer
    ensures { result ≡ code_of (offered_as answer) }
{
    match answer {
        Ok(()) => plain(TAKEN),
        Err(refusal) => refused(refusal),
    }
}

pub(crate) fn of_next(answer: Result<NextAnswer, Refusal>) -> Answer
    ensures { result ≡ code_of (asked_as answer) }
{
    match answer {
        Ok(NextAnswer::Sent(length)) => counted(SENT, length.0),
        Ok(NextAnswer::NothingWaiting) => plain(NOTHING_WAITING),
        Ok(NextAnswer::NotOperational) => plain(NOT_OPERATIONAL),
        Ok(NextAnswer::WindowShut) => plain(WINDOW_SHUT),
        Err(refusal) => refused(refusal),
    }
}

pub(crate) fn of_withdraw(answer: Result<(), Refusal>) -> Answer
    ensures { result ≡ code_of (withdrawn_as answer) }
{
    match answer {
        Ok(()) => plain(WITHDRAWN),
        Err(refusal) => refused(refusal),
    }
}

pub(crate) fn of_radio(answer: Result<RadioAnswer, Refusal>) -> Answer
    ensures { result ≡ code_of (heard_as answer) }
{
    match answer {
        Ok(RadioAnswer::Accepted) => plain(ACCEPTED),
        Ok(RadioAnswer::Due) => plain(DUE),
        Err(refusal) => refused(refusal),
    }
}

pub(crate) fn of_pace(answer: Result<PaceAnswer, Refusal>) -> Answer
    ensures { result ≡ code_of (paced_as answer) }
{
    match answer {
        Ok(PaceAnswer::Quiet) => plain(QUIET),
        Ok(PaceAnswer::Due) => plain(QUERY_DUE),
        Ok(PaceAnswer::Silent) => plain(SILENT),
        Ok(PaceAnswer::DueSilent) => plain(QUERY_DUE_SILENT),
        Err(refusal) => refused(refusal),
    }
}

pub(crate) fn of_handful(answer: Result<(), Refusal>) -> Answer
    ensures { result ≡ code_of (handed_as answer) }
{
    match answer {
        Ok(()) => plain(OFFERED),
        Err(refusal) => refused(refusal),
    }
}
