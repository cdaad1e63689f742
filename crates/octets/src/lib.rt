// Bytes copied, and a byte looked for.
#![tactic(auto)]

ghost use Rattle.std.specs.Prelude.{◌≡◌, ◌==◌, ◌+◌, ◌≤◌, ◌++◌, length, take, drop, position};
ghost use Rattle.octets.specs.Bytes.{slice, index_of};

// Copies bytes to the start of a target, and gives how many they are.
pub fn copy(source: &[u8], target: &mut [u8]) -> usize
    requires { length source.now ≤ length target.old }
    ensures count { result ≡ length source.now }
    ensures bytes { target.new ≡ take (length source.now) source.now ++ drop (length source.now) target.old }
{
    let count = source.len();
    let part = &mut target[..count];
    part.copy_from_slice(source);
    count
}

// The index of a byte in a text, if it stands there.
fn position(text: &[u8], byte: u8) -> Option<usize>
    ensures { result ≡ position (λ x. x == byte) text.now }
{
    text.iter().position(|x| *x == byte)
}

// The index of a byte in the part of a text from one index to another, or where the part ends.
pub fn find(text: &[u8], from: usize, to: usize, byte: u8) -> usize
    requires in_order { from ≤ to }
    requires in_bounds { to ≤ length text.now }
    ensures place { result ≡ from + index_of byte (slice from to text.now) }
    ensures within { result ≤ to }
{
    match position(&text[from..to], byte) {
        Some(at) => from + at,
        None => to,
    }
}
