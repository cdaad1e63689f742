// The header of section 3.1: a version of 4 bits, the Data Plane flag, 3 unused bits.
ghost use Rattle.std.specs.Prelude.{◌≡◌, Err};
ghost use Rattle.reader.specs.Readings.{plane_of};

use meaning::message::Plane;
use quantity::limit::LONGEST_DATAGRAM;
use quantity::refusal::{HEADER, LONG_DATAGRAM, Refusal};

const CURRENT_VERSION: u8 = 1;

fn refused(number: u8) -> Result<Plane, Refusal>
    ensures { result ≡ Err (record { number = number; place = 0 }) }
{
    Err(Refusal {
        number: number,
        place: 0,
    })
}

// The plane of a datagram, or 1 or 2.
pub fn plane(datagram: &[u8]) -> Result<Plane, Refusal>
    ensures { result ≡ plane_of datagram.now }
{
    if LONGEST_DATAGRAM < datagram.len() {
        return refused(LONG_DATAGRAM);
    }
    if datagram.len() == 0 {
        return refused(HEADER);
    }
    let header = datagram[0];
    if header / 16 != CURRENT_VERSION {
        return refused(HEADER);
    }
    if header / 8 % 2 == 0 {
        return Ok(Plane::Control);
    }
    Ok(Plane::Data)
}
