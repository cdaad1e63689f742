// What a datagram means to a reader, said.
ghost use Rattle.message_words.specs.Saying.{Says};
ghost use Rattle.session_print.specs.Readings.{control_read_texts, data_read_texts, reading_texts};

use meaning::message::{End, Plane};
use message_words::whole;
use quantity::count::DatalinkId;
use reader::answer::{ControlReading, DataReading, Verdict};
use reader::{control, data, header, packet};

fn control_said(reading: ControlReading, out: &mut [u8], at: usize) -> usize
    ensures { Says out.old at (control_read_texts reading) result out.new }
{
    let verdict = reading.verdict;
    match verdict {
        Verdict::Accepted => whole::control(out, at, reading.message),
        // The plane is known before a reader is asked.
        Verdict::OtherPlane => at,
        Verdict::Refused(refusal) => whole::refused(out, at, refusal),
    }
}

fn data_said(reading: DataReading, packet: &[u8], out: &mut [u8], at: usize) -> usize
    ensures { Says out.old at (data_read_texts reading packet.now) result out.new }
{
    let verdict = reading.verdict;
    match verdict {
        Verdict::Accepted => whole::data(out, at, reading.message, packet),
        Verdict::OtherPlane => at,
        Verdict::Refused(refusal) => whole::refused(out, at, refusal),
    }
}

pub(crate) fn reading(end: End, id: DatalinkId, datagram: &[u8], out: &mut [u8], at: usize) -> usize
    ensures { Says out.old at (reading_texts end id datagram.now) result out.new }
{
    match header::plane(datagram) {
        Ok(Plane::Control) => control_said(control::read(datagram, end, id), out, at),
        Ok(Plane::Data) => data_said(
            data::read(datagram, end, id),
            packet::packet(datagram),
            out,
            at,
        ),
        Err(refusal) => whole::refused(out, at, refusal),
    }
}
