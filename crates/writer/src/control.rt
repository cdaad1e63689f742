// Writing a control message.
ghost use Rattle.std.specs.Prelude.{◌≡◌, ◌≤◌, length};
ghost use Rattle.wire.specs.Options.{Laid};
ghost use Rattle.write_option.specs.Laying.{ShortNames};
ghost use Rattle.writable.specs.Allowed.{control_allowed};
ghost use Rattle.writer.specs.Written.{control_written, Outcome};

use crate::answer;
use meaning::message::{Control, End};
use quantity::count::ByteCount;
use quantity::refusal;
use quantity::refusal::Refusal;
use write_option::{option, size, table};

// Version 1, the control plane.
pub const HEADER: u8 = 16;

// The message's length: nothing is written before it is known to fit.
fn size(message: Control) -> usize
    requires { ShortNames message }
    ensures { result ≡ length (control_written message) }
{
    let datalink = message.datalink;
    let instance = message.instance;
    let context = message.context;
    let statuses = message.statuses;
    let sequences = message.sequences;
    let windows = message.windows;
    1 + size::datalink(datalink)
        + size::instance(instance)
        + size::context(context)
        + size::tables(statuses, sequences, windows)
}

// Each option is written into the rest of the output behind the one before.
fn lay(message: Control, out: &mut [u8]) -> usize
    requires short_names { ShortNames message }
    requires message_in_bounds { length (control_written message) ≤ length out.old }
    ensures { Laid (control_written message) out.old out.new result }
{
    let datalink = message.datalink;
    let instance = message.instance;
    let context = message.context;
    let statuses = message.statuses;
    let sequences = message.sequences;
    let windows = message.windows;
    out[0] = HEADER;
    let mut at: usize = 1;
    at = at + option::lay_datalink(&mut out[at..], datalink);
    at = at + option::lay_instance(&mut out[at..], instance);
    at = at + option::lay_context(&mut out[at..], context);
    at = at + table::lay_statuses(&mut out[at..], statuses);
    at = at + table::lay_sequences(&mut out[at..], sequences);
    at = at + table::lay_windows(&mut out[at..], windows);
    at
}

// 20 and 18 are judged before a byte is touched.
pub fn write(end: End, message: Control, out: &mut [u8]) -> Result<ByteCount, Refusal>
    ensures { Outcome (control_allowed end message) (control_written message) out.old result out.new }
{
    if !writable::control::may_write(end, message) {
        return answer::refused(refusal::NOT_WRITABLE);
    }
    if answer::no_room(size(message), out.len()) {
        return answer::refused(refusal::NO_ROOM);
    }
    Ok(ByteCount(lay(message, out)))
}
