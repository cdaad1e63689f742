// Document 01, "Counting": the five sorts of quantity, and the distance from a sequence to a window.
ghost use Rattle.std.specs.Prelude.{◌≡◌};
ghost use Rattle.quantity.specs.Distance.{ahead_of, distance_of, fits_of, advance_of};

#[derive(Clone, Copy)]
pub struct DatalinkId(pub u8);

#[derive(Clone, Copy)]
pub struct LinkInstanceId(pub u64);

#[derive(Clone, Copy)]
pub struct FlowSequence(pub u32);

#[derive(Clone, Copy)]
pub struct FlowWindow(pub u32);

#[derive(Clone, Copy)]
pub struct ByteCount(pub usize);

// Half the numbers of 32 bits: from here on a difference counts as negative.
const HALF: u32 = 2147483648;

// Window minus sequence modulo 2^32.
fn ahead(sequence: FlowSequence, window: FlowWindow) -> u32
    ensures { result ≡ ahead_of sequence window }
{
    window.0.wrapping_sub(sequence.0)
}

// The one number from -2^31 to 2^31 - 1 equal to window minus sequence modulo 2^32.
pub fn distance(sequence: FlowSequence, window: FlowWindow) -> i64
    ensures { result ≡ distance_of sequence window }
{
    i64::from(ahead(sequence, window).cast_signed())
}

// A packet fits when its bytes are at most the distance.
pub fn fits(sequence: FlowSequence, window: FlowWindow, bytes: ByteCount) -> bool
    ensures { result ≡ fits_of sequence window bytes }
{
    let word = ahead(sequence, window);
    word < HALF && bytes.0 <= word as usize
}

// Sending under a window adds the bytes to the sequence modulo 2^32.
pub fn advance(sequence: FlowSequence, bytes: ByteCount) -> FlowSequence
    ensures { result ≡ advance_of sequence bytes }
{
    let low = (bytes.0 % 4294967296) as u32;
    FlowSequence(sequence.0.wrapping_add(low))
}
