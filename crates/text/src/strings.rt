// Byte strings as pairs of lowercase hexadecimal digits; `-` is the empty one.
ghost use Rattle.std.specs.Prelude.{◌≡◌, ◌+◌, ◌*◌, ◌/◌, ◌≤◌, length};
ghost use Rattle.io.specs.Digits.{last_digits};
ghost use Rattle.text.specs.Laying.{Lays, laid};
ghost use Rattle.text.specs.Strings.{pair_at, pairs_of, readable_of, hexed_of, unhexed, pairs_text, bytes_text};

use crate::laying::put;
use crate::numbers::follow;

const HEXADECIMAL: u64 = 16;

const MOST_BYTE: u64 = 255;

// Stands for the empty byte string.
const EMPTY: u8 = b'-';

// The byte that a pair of digits stands for, by the pair's index.
fn pair(word: &[u8], i: usize) -> Option<u64>
    requires { i * 2 + 2 ≤ length word.now }
    ensures { result ≡ pair_at word.now i }
{
    let from = i * 2;
    let to = from + 2;
    follow(&word[from..to], HEXADECIMAL, MOST_BYTE)
}

// How many pairs of a word stand for a byte, up to the first that doesn't.
fn pairs(word: &[u8]) -> usize
    ensures { result ≡ length (pairs_of word.now) }
{
    let n = word.len() / 2;
    for i in 0..n {
        let Some(_) = pair(word, i) else {
            return i;
        };
    }
    n
}

// Lays the bytes of those pairs at the start of an output.
fn unpair(word: &[u8], out: &mut [u8])
    requires { length word.now / 2 ≤ length out.old }
    ensures { out.new ≡ laid out.old 0 (pairs_of word.now) }
{
    let n = word.len() / 2;
    for i in 0..n {
        let Some(byte) = pair(word, i) else {
            return;
        };
        out[i] = byte as u8;
    }
}

// Whether a word stands for a byte string.
fn readable(word: &[u8]) -> bool
    ensures { result ≡ readable_of word.now }
{
    if word.len() == 0 {
        return false;
    }
    if word.len() == 1 {
        return word[0] == EMPTY;
    }
    pairs(word) * 2 == word.len()
}

// The byte string that a word stands for, laid at the start of an output. A refused word leaves the output as it was.
pub fn unhex(word: &[u8], out: &mut [u8]) -> Option<usize>
    ensures value { result ≡ hexed_of (length out.old) word.now }
    ensures out_after { out.new ≡ unhexed out.old word.now }
{
    let n = word.len() / 2;
    if !readable(word) {
        return None;
    }
    if n > out.len() {
        return None;
    }
    unpair(word, out);
    Some(n)
}

// Lays a byte as a pair of digits.
fn put_byte(out: &mut [u8], at: usize, byte: u8) -> usize
    ensures { Lays out.old at (last_digits 16 2 byte) result out.new }
{
    let mut text = [0u8; 16];
    let n = io::hex(byte as u64, 2, &mut text);
    put(out, at, &text[..n])
}

// Lays bytes as pairs of digits.
fn put_pairs(out: &mut [u8], at: usize, bytes: &[u8]) -> usize
    requires { at + length bytes.now * 2 ≤ length out.old }
    ensures { Lays out.old at (pairs_text bytes.now) result out.new }
{
    let mut end = at;
    for byte in bytes {
        end = put_byte(out, end, *byte);
    }
    end
}

// Lays a byte string.
pub fn put_bytes(out: &mut [u8], at: usize, bytes: &[u8]) -> usize
    ensures { Lays out.old at (bytes_text bytes.now) result out.new }
{
    if bytes.len() == 0 {
        return put(out, at, b"-");
    }
    if at > out.len() {
        return at;
    }
    if bytes.len() > (out.len() - at) / 2 {
        return at;
    }
    put_pairs(out, at, bytes)
}
