// Reading a control message, of either end.
ghost use Rattle.std.specs.Prelude.{◌≡◌};
ghost use Rattle.reader.specs.Readings.{read_control};

use crate::answer::{ControlReading, Verdict};
use crate::header;
use meaning::message::{End, Plane};
use quantity::count::DatalinkId;

// A control message, read whole, or the first refusal; or the answer that it is of the other plane.
pub fn read(datagram: &[u8], end: End, id: DatalinkId) -> ControlReading
    ensures { result ≡ read_control end id datagram.now }
{
    match header::plane(datagram) {
        Ok(Plane::Control) => read_control::options(datagram, end, id),
        Ok(Plane::Data) => ControlReading {
            verdict: Verdict::OtherPlane,
            message: read_control::blank(),
        },
        Err(refusal) => read_control::refused(refusal.number, refusal.place),
    }
}
