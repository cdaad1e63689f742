// The answer to a line about messages.
ghost use Rattle.std.specs.Prelude.{◌≡◌, [], ◌∷◌, min, length};
ghost use Rattle.message_words.specs.Saying.{Says};
ghost use Rattle.session_print.specs.Echoes.{echoing_texts};
ghost use Rattle.session_print.specs.Messages.{BAD-LINE, message_texts, about_state};

use crate::echo::echoing;
use crate::reading::reading;
use meaning::message::End;
use quantity::count::DatalinkId;
use session_read::Asked;
use text::put;

// Whether a line is about a state.
pub fn about_state(asked: Asked) -> bool
    ensures { result ≡ about_state asked }
{
    match asked {
        Asked::Bad => false,
        Asked::Read(_, _) => false,
        Asked::Echo(_, _, _, _) => false,
        Asked::Start => true,
        Asked::State(_) => true,
    }
}

// The answer to a line that breaks the page.
pub fn bad_line(out: &mut [u8]) -> usize
    ensures { Says out.old 0 (BAD-LINE ∷ []) result out.new }
{
    put(out, 0, b"bad line")
}

// Written into the first bytes of a lent output, at most `room`.
fn echoed(
    end: End,
    id: u8,
    datagram: &[u8],
    other: End,
    room: usize,
    output: &mut [u8],
    out: &mut [u8],
) -> usize
    ensures { Says out.old 0 (echoing_texts end (record { 0 = id }) datagram.now other (min room (length output.old))) result out.new }
{
    let size = room.min(output.len());
    echoing(
        end,
        DatalinkId(id),
        datagram,
        other,
        &mut output[0..size],
        out,
        0,
    )
}

// `read`, `echo`, or a line that is no command.
pub fn message(asked: Asked, datagram: &[u8], output: &mut [u8], out: &mut [u8]) -> usize
    ensures { Says out.old 0 (message_texts (length output.old) datagram.now asked) result out.new }
{
    match asked {
        Asked::Bad => bad_line(out),
        Asked::Read(end, id) => reading(end, DatalinkId(id), datagram, out, 0),
        Asked::Echo(end, id, other, room) => echoed(end, id, datagram, other, room, output, out),
        Asked::Start => bad_line(out),
        Asked::State(_) => bad_line(out),
    }
}
