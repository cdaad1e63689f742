// Whose message it is, by its number, and what a reader answers, as numbers. specs/Calls.antt has the same names, with `-` for `_`.
ghost use Rattle.std.specs.Prelude.{◌≡◌, cond, Some, None};
ghost use Rattle.answer_codes.specs.Codes.{code_of};
ghost use Rattle.message_calls.specs.Calls.{is_end, end_of, verdict_as, refused_by};

use answer_codes::{ACCEPTED, Answer, OTHER_PLANE, plain, refused};
use meaning::message::End;
use quantity::refusal::Refusal;
use reader::answer::Verdict;

pub const IPS_END: u8 = 0;

pub const RADIO_END: u8 = 1;

// None where a number is no end's.
#[tactic(auto, unfolding(crate::specs::Calls::end_of))]
pub(crate) fn end_of(end: u8) -> Option<End>
    ensures { result ≡ cond (is_end end) (Some (end_of end)) None }
{
    match end {
        IPS_END => Some(End::Ips),
        RADIO_END => Some(End::Radio),
        _ => None,
    }
}

// A refusal of the call itself has place 0.
pub(crate) fn refused_by(number: u8) -> Answer
    ensures { result ≡ code_of (refused_by number) }
{
    refused(Refusal { number, place: 0 })
}

pub(crate) fn of_verdict(verdict: Verdict) -> Answer
    ensures { result ≡ code_of (verdict_as verdict) }
{
    match verdict {
        Verdict::Accepted => plain(ACCEPTED),
        Verdict::OtherPlane => plain(OTHER_PLANE),
        Verdict::Refused(refusal) => refused(refusal),
    }
}
