// Reading a data message, of either end.
ghost use Rattle.std.specs.Prelude.{◌≡◌};
ghost use Rattle.reader.specs.Readings.{read_data, read_carried, Carries};

use crate::answer::{CarriedReading, DataReading, Verdict};
use crate::header;
use meaning::message::{End, Plane};
use quantity::count::DatalinkId;

// A data message, read whole, or the first refusal; or the answer that it is of the other plane.
pub fn read(datagram: &[u8], end: End, id: DatalinkId) -> DataReading
    ensures { result ≡ read_data end id datagram.now }
{
    match header::plane(datagram) {
        Err(refusal) => read_data::refused(refusal.number, refusal.place),
        Ok(Plane::Control) => DataReading {
            verdict: Verdict::OtherPlane,
            message: read_data::blank(),
        },
        Ok(Plane::Data) => read_data::options(datagram, end, id),
    }
}

// The same, and where the carried packet begins, by one walk over the options: what `read` and `packet::packet` answer in two.
pub fn read_with_packet(datagram: &[u8], end: End, id: DatalinkId) -> CarriedReading
    ensures value { result ≡ read_carried end id datagram.now }
    ensures packet { Carries result datagram.now }
{
    match header::plane(datagram) {
        Err(refusal) => { read_data::uncarried(refusal.number, refusal.place, datagram.len()) }
        Ok(Plane::Control) => read_data::other_plane(datagram.len()),
        Ok(Plane::Data) => read_data::with_packet(datagram, end, id),
    }
}
