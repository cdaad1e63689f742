// A control message, of either end, option by option.
#![tactic(auto)]

ghost use Rattle.std.specs.Prelude.{◌≡◌, false, cond, drop};
ghost use Rattle.wire.specs.Options.{split};
ghost use Rattle.quantity.specs.Refusals.{MISSING, OTHER-DATALINK};
ghost use Rattle.meaning.specs.declared.message.Plane.{Plane};
ghost use Rattle.meaning.specs.Kinds.{among, must_hold, CHANNEL-STATUS};
ghost use Rattle.read_rules.specs.Judging.{judge};
ghost use Rattle.read_rules.specs.Sorts.{is_ours, rules_of, unstated_datalink};
ghost use Rattle.read_control.specs.Message.{unstated_status, blank_control, control_refused, control_sort};

use meaning::message::{Control, End, Window};
use quantity::count::DatalinkId;
use quantity::limit::CHANNEL_IDS;
use quantity::refusal::{CUT, MISSING, OTHER_DATALINK, REPEATED, Refusal};
use read_option::answer::Item;
use read_option::option;
use read_rules::answer::Verdict;
use wire::option::{FRAME_SIZE, first};

// The meaning is that of a message that states nothing unless it is accepted.
#[derive(Clone, Copy)]
pub struct ControlReading {
    pub verdict: Verdict,
    pub message: Control,
}

// A message that states nothing.
pub fn blank() -> Control
    ensures { result ≡ blank_control }
{
    Control {
        datalink: None,
        instance: None,
        context: None,
        statuses: [None; CHANNEL_IDS],
        sequences: [None; CHANNEL_IDS],
        windows: [None; CHANNEL_IDS],
    }
}

// A refused message states nothing.
pub fn refused(number: u8, place: usize) -> ControlReading
    ensures { result ≡ control_refused number place }
{
    ControlReading {
        verdict: Verdict::Refused(Refusal { number, place }),
        message: blank(),
    }
}

// Whether a message of this end must hold a Channel Status for channel 0, and doesn't.
fn lacks_status(end: End, status: Option<u8>) -> bool
    ensures { result ≡ cond (among CHANNEL-STATUS (must_hold Plane.Control end)) (unstated_status status) false }
{
    match end {
        End::Ips => false,
        End::Radio => match status {
            None => true,
            Some(_) => false,
        },
    }
}

// The tests on the whole, 9, then 11: the number of the refusal, or 0.
fn fault(end: End, id: DatalinkId, datalink: Option<DatalinkId>, status: Option<u8>) -> u8
    ensures { result ≡ cond (unstated_datalink datalink) MISSING (cond (cond (among CHANNEL-STATUS (must_hold Plane.Control end)) (unstated_status status) false) MISSING (cond (is_ours id datalink) 0 OTHER-DATALINK)) }
{
    let Some(stated) = datalink else {
        return MISSING;
    };
    if lacks_status(end, status) {
        return MISSING;
    }
    if stated.0 != id.0 {
        return OTHER_DATALINK;
    }
    0
}

// A place of the table of windows, by cases: a copy of the whole would wait until its parts, just stored, have come to memory.
fn window_cell(window: Option<Window>) -> Option<Window>
    ensures { result ≡ window }
{
    match window {
        None => None,
        Some(Window::Empty) => Some(Window::Empty),
        Some(Window::Given(edge)) => Some(Window::Given(edge)),
    }
}

// The options one after another, from the byte behind the header on. What they state stands where it is handed on, in the reading of an accepted message:
// a call that took the tables would copy them at each option, and tables of their own would be copied once more at the end.
pub fn options(datagram: &[u8], end: End, id: DatalinkId) -> ControlReading
    ensures { result ≡ judge (rules_of (control_sort end id)) (split (drop 1 datagram.now)) 1 blank_control }
{
    let mut reading = ControlReading {
        verdict: Verdict::Accepted,
        message: blank(),
    };
    let mut at: usize = 1;
    // Each option says where the next begins: no `for` or iterator goes by such steps.
    while at < datagram.len() {
        let Some((kind, size)) = first(&datagram[at..]) else {
            return refused(CUT, at);
        };
        let from = at + FRAME_SIZE;
        let to = from + size;
        let answer = option::of_control(end, kind, &datagram[from..to]);
        let Ok(item) = answer else {
            return refused(option::number_of(answer), at);
        };
        match item {
            Item::Datalink(stated) => {
                let None = reading.message.datalink else {
                    return refused(REPEATED, at);
                };
                reading.message.datalink = Some(stated);
            }
            Item::Instance(number, length) => {
                let None = reading.message.instance else {
                    return refused(REPEATED, at);
                };
                reading.message.instance = Some((number, length));
            }
            Item::Context(bytes, length) => {
                let None = reading.message.context else {
                    return refused(REPEATED, at);
                };
                reading.message.context = Some((bytes, length));
            }
            Item::Status(channel, status) => {
                let i = channel as usize;
                let None = reading.message.statuses[i] else {
                    return refused(REPEATED, at);
                };
                reading.message.statuses[i] = Some(status);
            }
            Item::Sequence(channel, sequence) => {
                let i = channel as usize;
                let None = reading.message.sequences[i] else {
                    return refused(REPEATED, at);
                };
                reading.message.sequences[i] = Some(sequence);
            }
            Item::Window(channel, window) => {
                let i = channel as usize;
                let None = reading.message.windows[i] else {
                    return refused(REPEATED, at);
                };
                reading.message.windows[i] = window_cell(window);
            }
            // An unknown option is skipped; what only a data message states was refused.
            _ => {}
        }
        at = to;
    }
    let number = fault(
        end,
        id,
        reading.message.datalink,
        reading.message.statuses[0],
    );
    if number != 0 {
        return refused(number, at);
    }
    reading
}
