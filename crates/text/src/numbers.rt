// Numbers read from digits.
ghost use Rattle.std.specs.Prelude.{◌≡◌, ◌<◌};
ghost use Rattle.text.specs.Numbers.{digit_of, step_of, follow_of, plain_of, parse_of};

const DECIMAL: u64 = 10;

// The digit that a byte stands for, 0 to 15, or 16.
fn digit(byte: u8) -> u64
    ensures { result ≡ digit_of byte }
{
    match byte {
        b'0'..=b'9' => (byte - b'0') as u64,
        b'a'..=b'f' => (byte - b'a') as u64 + 10,
        _ => 16,
    }
}

// A number with one digit more, up to a bound.
fn step(value: u64, byte: u8, base: u64, most: u64) -> Option<u64>
    requires { 0 < base }
    ensures { result ≡ step_of base most value byte }
{
    let d = digit(byte);
    if d >= base {
        return None;
    }
    if d > most {
        return None;
    }
    if value > (most - d) / base {
        return None;
    }
    Some(value * base + d)
}

// The number that digits stand for, up to a bound.
pub(crate) fn follow(digits: &[u8], base: u64, most: u64) -> Option<u64>
    requires { 0 < base }
    ensures { result ≡ follow_of base most 0 digits.now }
{
    let mut value: u64 = 0;
    for byte in digits {
        value = step(value, *byte, base, most)?;
    }
    Some(value)
}

// Whether a word isn't empty and has no needless leading zero.
fn plain(word: &[u8]) -> bool
    ensures { result ≡ plain_of word.now }
{
    if word.len() == 0 {
        return false;
    }
    if word.len() == 1 {
        return true;
    }
    word[0] != b'0'
}

// The number up to a bound that a word stands for in decimal.
pub fn parse(word: &[u8], most: u64) -> Option<u64>
    ensures { result ≡ parse_of most word.now }
{
    if plain(word) {
        return follow(word, DECIMAL, most);
    }
    None
}
