// A control message of either end judged, option by option, and what it states of each channel noted in lent tables of numbers: a caller that only looks at it copies
// no table of a whole meaning.
#![tactic(auto)]

ghost use Rattle.std.specs.Prelude.{◌≡◌, false, cond, drop, replicate, None};
ghost use Rattle.wire.specs.Options.{split};
ghost use Rattle.quantity.specs.Refusals.{MISSING, OTHER-DATALINK};
ghost use Rattle.meaning.specs.declared.message.Plane.{Plane};
ghost use Rattle.meaning.specs.Kinds.{among, must_hold, CHANNEL-STATUS};
ghost use Rattle.read_rules.specs.Judging.{judge};
ghost use Rattle.read_rules.specs.Sorts.{is_ours, rules_of, unstated_datalink};
ghost use Rattle.read_control.specs.Message.{unstated_status, blank_control, control_sort};
ghost use Rattle.quantity.specs.Limits.{CHANNEL-IDS};
ghost use Rattle.note_control.specs.Codes.{window_tag, window_word, code_status};
ghost use Rattle.note_control.specs.Noted.{NotedBy};

use meaning::message::{ContextBytes, End, Window};
use quantity::count::{DatalinkId, LinkInstanceId};
use quantity::limit::CHANNEL_IDS;
use quantity::refusal::{CUT, MISSING, OTHER_DATALINK, REPEATED, Refusal};
use read_option::answer::Item;
use read_option::option;
use read_rules::answer::Verdict;
use wire::option::{FRAME_SIZE, first};

pub mod codes;

// A Channel Status is noted as one more than it; a Flow Window as a tag, and its word beside.
pub const ABSENT_STATUS: u16 = 0;

pub const ABSENT_WINDOW: u8 = 0;

pub const EMPTY_WINDOW: u8 = 1;

pub const GIVEN_WINDOW: u8 = 2;

fn window_tag(window: Option<Window>) -> u8
    ensures { result ≡ window_tag window }
{
    match window {
        None => ABSENT_WINDOW,
        Some(Window::Empty) => EMPTY_WINDOW,
        Some(Window::Given(_)) => GIVEN_WINDOW,
    }
}

fn window_word(window: Option<Window>) -> u32
    ensures { result ≡ window_word window }
{
    match window {
        None => 0,
        Some(Window::Empty) => 0,
        Some(Window::Given(word)) => word.0,
    }
}

// Whether a message of this end must hold a Channel Status for channel 0, and doesn't.
fn lacks_status(end: End, code: u16) -> bool
    ensures { result ≡ cond (among CHANNEL-STATUS (must_hold Plane.Control end)) (unstated_status (code_status code)) false }
{
    match end {
        End::Ips => false,
        End::Radio => code == ABSENT_STATUS,
    }
}

// The tests on the whole, 9, then 11: the number of the refusal, or 0.
fn fault(end: End, id: DatalinkId, datalink: Option<DatalinkId>, code: u16) -> u8
    ensures { result ≡ cond (unstated_datalink datalink) MISSING (cond (cond (among CHANNEL-STATUS (must_hold Plane.Control end)) (unstated_status (code_status code)) false) MISSING (cond (is_ours id datalink) 0 OTHER-DATALINK)) }
{
    let Some(stated) = datalink else {
        return MISSING;
    };
    if lacks_status(end, code) {
        return MISSING;
    }
    if stated.0 != id.0 {
        return OTHER_DATALINK;
    }
    0
}

// The verdict, and what of the meaning stands in no table.
#[derive(Clone, Copy)]
pub struct Noted {
    pub verdict: Verdict,
    pub instance: Option<(LinkInstanceId, usize)>,
    pub context: Option<(ContextBytes, usize)>,
}

// Of a refused message nothing is noted.
fn unnoted(number: u8, place: usize) -> Noted
    ensures { result ≡ record { verdict = Verdict.Refused (record { number = number; place = place }); instance = None; context = None } }
{
    Noted {
        verdict: Verdict::Refused(Refusal { number, place }),
        instance: None,
        context: None,
    }
}

// The options one after another, from the byte behind the header on. The tables hold zeros before; of an accepted message they tell each channel's status and window.
pub fn note(
    datagram: &[u8],
    end: End,
    id: DatalinkId,
    statuses: &mut [u16],
    tags: &mut [u8],
    windows: &mut [u32],
) -> Noted
    requires { (statuses.old ≡ replicate CHANNEL-IDS 0) × (tags.old ≡ replicate CHANNEL-IDS 0) × (windows.old ≡ replicate CHANNEL-IDS 0) }
    ensures { NotedBy (judge (rules_of (control_sort end id)) (split (drop 1 datagram.now)) 1 blank_control) result statuses.new tags.new windows.new }
{
    let mut datalink = None;
    let mut instance = None;
    let mut context = None;
    let mut sequences = [false; CHANNEL_IDS];
    let mut at: usize = 1;
    // Each option says where the next begins: no `for` or iterator goes by such steps.
    while at < datagram.len() {
        let Some((kind, size)) = first(&datagram[at..]) else {
            return unnoted(CUT, at);
        };
        let from = at + FRAME_SIZE;
        let to = from + size;
        let answer = option::of_noted(end, kind, &datagram[from..to]);
        let Ok(item) = answer else {
            return unnoted(option::number_of(answer), at);
        };
        match item {
            Item::Datalink(stated) => {
                let None = datalink else {
                    return unnoted(REPEATED, at);
                };
                datalink = Some(stated);
            }
            Item::Instance(number, length) => {
                let None = instance else {
                    return unnoted(REPEATED, at);
                };
                instance = Some((number, length));
            }
            Item::Context(bytes, length) => {
                let None = context else {
                    return unnoted(REPEATED, at);
                };
                context = Some((bytes, length));
            }
            Item::Status(channel, status) => {
                let i = channel as usize;
                if statuses[i] != ABSENT_STATUS {
                    return unnoted(REPEATED, at);
                }
                statuses[i] = status as u16 + 1;
            }
            Item::Sequence(channel, _) => {
                let i = channel as usize;
                if sequences[i] {
                    return unnoted(REPEATED, at);
                }
                sequences[i] = true;
            }
            Item::Window(channel, window) => {
                let i = channel as usize;
                if tags[i] != ABSENT_WINDOW {
                    return unnoted(REPEATED, at);
                }
                tags[i] = window_tag(window);
                windows[i] = window_word(window);
            }
            // An unknown option is skipped; what only a data message states was refused.
            _ => {}
        }
        at = to;
    }
    let number = fault(end, id, datalink, statuses[0]);
    if number != 0 {
        return unnoted(number, at);
    }
    Noted {
        verdict: Verdict::Accepted,
        instance,
        context,
    }
}
