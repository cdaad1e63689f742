// Document 01, "Messages": what a status means, and document 02, §6: which of the others a datalink's setting makes operational.
ghost use Rattle.std.specs.Prelude.{◌<◌, ◌≡◌};
ghost use Rattle.meaning.specs.Statuses.{bit_of, code_operational, operational};

use quantity::limit::HIGHEST_STATUS;

const FIRST_OPERATIONAL: u8 = 1;

const LAST_OPERATIONAL: u8 = 7;

const FIRST_CONFIGURED: u8 = 8;

// Which of the statuses 8 to 15 are operational: bit status - 8.
#[derive(Clone, Copy)]
pub struct StatusCodes(pub u8);

// One bit of the setting, by its place from the lowest.
fn bit(codes: StatusCodes, place: u8) -> u8
    requires { place < 8 }
    ensures { result ≡ bit_of codes place }
{
    let word = codes.0;
    (word >> place) % 2
}

// The same of a status that is reported.
fn is_code_operational(codes: StatusCodes, code: u8) -> bool
    ensures { result ≡ code_operational codes code }
{
    if code <= LAST_OPERATIONAL {
        return FIRST_OPERATIONAL <= code;
    }
    if HIGHEST_STATUS < code {
        return false;
    }
    bit(codes, code - FIRST_CONFIGURED) == 1
}

// Whether a channel of this status may send: 1 to 7, and 8 to 15 as the setting has it.
pub fn is_operational(codes: StatusCodes, status: Option<u8>) -> bool
    ensures { result ≡ operational codes status }
{
    match status {
        None => false,
        Some(code) => is_code_operational(codes, code),
    }
}
