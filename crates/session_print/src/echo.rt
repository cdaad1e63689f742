// What a datagram means, written as a message of an end into a lent output, said.
ghost use Rattle.std.specs.Prelude.{◌≤◌, length, take};
ghost use Rattle.message_words.specs.Saying.{Says};
ghost use Rattle.writable.specs.Allowed.{control_allowed, data_allowed};
ghost use Rattle.writer.specs.Written.{control_written, data_written};
ghost use Rattle.session_print.specs.Echoes.{count_of, written_texts, outcome_texts, control_echo_texts, data_echo_texts, echoing_texts};

use meaning::message::{Control, Data, End, Plane};
use message_words::whole;
use quantity::count::{ByteCount, DatalinkId};
use quantity::refusal::Refusal;
use reader::answer::{ControlReading, DataReading, Verdict};
use reader::{header, packet};
use text::{put, put_bytes};

// The answer of a writer; the message stands at the start of the lent output.
fn outcome(answer: Result<ByteCount, Refusal>, lent: &[u8], out: &mut [u8], at: usize) -> usize
    requires { count_of answer ≤ length lent.now }
    ensures { Says out.old at (written_texts answer (take (count_of answer) lent.now)) result out.new }
{
    match answer {
        Ok(count) => {
            let n = count.0;
            let behind = put(out, at, b"written ");
            put_bytes(out, behind, &lent[0..n])
        }
        Err(refusal) => whole::refused(out, at, refusal),
    }
}

fn control_written(message: Control, end: End, lent: &mut [u8], out: &mut [u8], at: usize) -> usize
    ensures { Says out.old at (outcome_texts (control_allowed end message) (control_written message) (length lent.old)) result out.new }
{
    let answer = writer::control::write(end, message, lent);
    outcome(answer, lent, out, at)
}

fn data_written(
    message: Data,
    packet: &[u8],
    end: End,
    lent: &mut [u8],
    out: &mut [u8],
    at: usize,
) -> usize
    ensures { Says out.old at (outcome_texts (data_allowed end message (length packet.now)) (data_written message packet.now) (length lent.old)) result out.new }
{
    let answer = writer::data::write(end, message, packet, lent);
    outcome(answer, lent, out, at)
}

fn control_echoed(
    reading: ControlReading,
    end: End,
    lent: &mut [u8],
    out: &mut [u8],
    at: usize,
) -> usize
    ensures { Says out.old at (control_echo_texts end (length lent.old) reading) result out.new }
{
    let verdict = reading.verdict;
    match verdict {
        Verdict::Accepted => control_written(reading.message, end, lent, out, at),
        // The plane is known before a reader is asked.
        Verdict::OtherPlane => at,
        Verdict::Refused(refusal) => whole::refused(out, at, refusal),
    }
}

fn data_echoed(
    reading: DataReading,
    packet: &[u8],
    end: End,
    lent: &mut [u8],
    out: &mut [u8],
    at: usize,
) -> usize
    ensures { Says out.old at (data_echo_texts end (length lent.old) reading packet.now) result out.new }
{
    let verdict = reading.verdict;
    match verdict {
        Verdict::Accepted => data_written(reading.message, packet, end, lent, out, at),
        Verdict::OtherPlane => at,
        Verdict::Refused(refusal) => whole::refused(out, at, refusal),
    }
}

// Read as a message of `end`, and written as one of `other`.
pub(crate) fn echoing(
    end: End,
    id: DatalinkId,
    datagram: &[u8],
    other: End,
    lent: &mut [u8],
    out: &mut [u8],
    at: usize,
) -> usize
    ensures { Says out.old at (echoing_texts end id datagram.now other (length lent.old)) result out.new }
{
    match header::plane(datagram) {
        Ok(Plane::Control) => control_echoed(
            reader::control::read(datagram, end, id),
            other,
            lent,
            out,
            at,
        ),
        Ok(Plane::Data) => data_echoed(
            reader::data::read(datagram, end, id),
            packet::packet(datagram),
            other,
            lent,
            out,
            at,
        ),
        Err(refusal) => whole::refused(out, at, refusal),
    }
}
