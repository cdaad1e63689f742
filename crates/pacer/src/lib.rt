// The pacer: when a query is due, and when the radio has been silent too long. Document 02, "Query pacing and silence".
#![tactic(auto)]

ghost use Rattle.std.specs.Prelude.{◌≡◌};
ghost use Rattle.pacer.specs.Pacing.{fresh_pacer, pacer_fits, is_earlier, passed, is_due, is_silent, asked, heard_at, moved_to, answer_of};

use quantity::refusal::Refusal;

// The two waits as configured, and three times: the pacer's one clock, the last query due, the last accepted radio control message.
#[derive(Clone, Copy)]
pub struct Pacer {
    pub hello: u64,
    pub limit: u64,
    pub clock: u64,
    pub due: u64,
    pub heard: u64,
}

// One answer says both: is a query due, and is the radio silent.
#[derive(Clone, Copy)]
pub enum PaceAnswer {
    Quiet,
    Due,
    Silent,
    DueSilent,
}

// Both waits first run from 0.
pub fn fresh(hello: u64, limit: u64) -> Pacer
    ensures { result ≡ fresh_pacer hello limit }
{
    Pacer {
        hello,
        limit,
        clock: 0,
        due: 0,
        heard: 0,
    }
}

// Number 22 is given where this doesn't hold.
pub fn fits(hello: u64, limit: u64) -> bool
    ensures { result ≡ pacer_fits (fresh_pacer hello limit) }
{
    0 < hello && 0 < limit
}

// Number 21.
pub fn is_earlier(pacer: Pacer, time: u64) -> bool
    ensures { result ≡ is_earlier time pacer }
{
    time < pacer.clock
}

// Whether a wait since a time is over; the sum of the two may have more than 64 bits.
fn has_passed(since: u64, wait: u64, time: u64) -> bool
    ensures { result ≡ passed since wait time }
{
    since <= time && wait <= time - since
}

pub fn is_due(pacer: Pacer, time: u64) -> bool
    ensures { result ≡ is_due time pacer }
{
    has_passed(pacer.due, pacer.hello, time)
}

pub fn is_silent(pacer: Pacer, time: u64) -> bool
    ensures { result ≡ is_silent time pacer }
{
    has_passed(pacer.heard, pacer.limit, time)
}

// Asked at a time: the wait for the next query runs from an ask that was answered due.
#[tactic(auto, unfolding(crate::specs::Pacing::asked))]
pub fn ask(pacer: Pacer, time: u64) -> Pacer
    ensures { result ≡ asked time pacer }
{
    let due = if is_due(pacer, time) { time } else { pacer.due };
    Pacer {
        clock: time,
        due,
        ..pacer
    }
}

// An accepted radio control message moves the clock, and the silence runs from it.
#[tactic(auto, unfolding(crate::specs::Pacing::heard_at))]
pub fn hear(pacer: Pacer, time: u64) -> Pacer
    ensures { result ≡ heard_at time pacer }
{
    Pacer {
        clock: time,
        heard: time,
        ..pacer
    }
}

// An accepted radio data message moves the clock, and nothing else.
#[tactic(auto, unfolding(crate::specs::Pacing::moved_to))]
pub fn pass(pacer: Pacer, time: u64) -> Pacer
    ensures { result ≡ moved_to time pacer }
{
    Pacer {
        clock: time,
        ..pacer
    }
}

pub fn answer(due: bool, silent: bool) -> Result<PaceAnswer, Refusal>
    ensures { result ≡ answer_of due silent }
{
    Ok(match (due, silent) {
        (true, true) => PaceAnswer::DueSilent,
        (true, false) => PaceAnswer::Due,
        (false, true) => PaceAnswer::Silent,
        (false, false) => PaceAnswer::Quiet,
    })
}
