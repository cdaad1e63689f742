// Big-endian numbers of 1 to 8 bytes.
ghost use Rattle.std.specs.Prelude.{◌≡◌, ◌≤◌, ◌<◌, ◌^◌, length};
ghost use Rattle.wire.specs.Numbers.{big_endian, bytes_of};

// The number that the bytes spell, the highest first.
pub fn read(bytes: &[u8]) -> u64
    requires { length bytes.now ≤ 8 }
    ensures value { result ≡ big_endian bytes.now }
    ensures below { result < 256 ^ length bytes.now }
{
    let mut value: u64 = 0;
    for byte in bytes {
        value = value * 256 + u64::from(*byte);
    }
    value
}

// Writes the number over the whole of `out`, the highest byte first; of a number that is too big its low bytes.
pub fn write(out: &mut [u8], value: u64)
    ensures { out.new ≡ bytes_of (length out.old) value }
{
    let mut left = value;
    for i in (0..out.len()).rev() {
        out[i] = (left % 256) as u8;
        left /= 256;
    }
}
