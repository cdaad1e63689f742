// A line behind its first word, read by a row.
ghost use Rattle.std.specs.Prelude.{◌≡◌, ◌*◌, ◌≤◌, false, cond, eqb, length, take, drop};
ghost use Rattle.text.specs.Words.{beyond_of};
ghost use Rattle.line_rows.specs.Rows.{behind_of, item_of, items_of, list_of, last_number, item_or_list_of, left_out_of, ReadsRow};
ghost use Rattle.line_rows.specs.Cursors.{length_laid, StartsAt, stopped_at, said_at, Inside, Advances};

use crate::word::value;
use crate::{BYTES, LIST, OPTIONAL};

// Whether a row read all of a line, and how many bytes it said.
#[derive(Clone, Copy)]
pub(crate) struct RowRead {
    pub(crate) good: bool,
    pub(crate) bytes: usize,
}

// How far a line is read: whether all was well, where its rest starts, how many numbers and bytes were said.
#[derive(Clone, Copy)]
struct Cursor {
    good: bool,
    at: usize,
    numbers: usize,
    bytes: usize,
}

// How many bytes a word laid.
fn length_laid(a: u64, value: u64) -> usize
    ensures { result ≡ length_laid a value }
{
    if a == BYTES {
        return value as usize;
    }
    0
}

// Where the rest behind a word starts.
fn behind_word(line: &[u8], at: usize) -> usize
    requires { at ≤ length line.now }
    ensures { StartsAt line.now result (beyond_of (drop at line.now)) }
{
    let left = text::beyond(&line[at..]);
    line.len() - left.len()
}

// The same, where a OPTIONAL that isn't there takes no word.
fn behind_item(line: &[u8], at: usize, a: u64, value: u64) -> usize
    requires { at ≤ length line.now }
    ensures { StartsAt line.now result (behind_of a value (drop at line.now)) }
{
    if a != OPTIONAL {
        return behind_word(line, at);
    }
    if value == 0 {
        return at;
    }
    behind_word(line, at)
}

// No more is read.
fn stop(s: Cursor) -> Cursor
    ensures { result ≡ stopped_at s }
{
    Cursor { good: false, ..s }
}

// Reads one word.
fn item(line: &[u8], a: u64, b: u64, s: Cursor, numbers: &mut [u64], bytes: &mut [u8]) -> Cursor
    requires { Inside line.now s numbers.old bytes.old }
    ensures { Advances line.now s numbers.old bytes.old (item_of (length numbers.old) (length bytes.old) a b (said_at line.now s numbers.old bytes.old)) result numbers.new bytes.new }
{
    if !s.good {
        return s;
    }
    let at = s.at;
    let n = s.numbers;
    let m = s.bytes;
    if n >= numbers.len() {
        return stop(s);
    }
    let Some(v) = value(text::word(&line[at..]), a, b, &mut bytes[m..]) else {
        return stop(s);
    };
    numbers[n] = v;
    let next = behind_item(line, at, a, v);
    Cursor {
        good: true,
        at: next,
        numbers: n + 1,
        bytes: m + length_laid(a, v),
    }
}

// Reads the words of a row without LIST.
fn items(line: &[u8], row: &[u64], s: Cursor, numbers: &mut [u64], bytes: &mut [u8]) -> Cursor
    requires { Inside line.now s numbers.old bytes.old }
    ensures { Advances line.now s numbers.old bytes.old (items_of (length numbers.old) (length bytes.old) row.now (said_at line.now s numbers.old bytes.old)) result numbers.new bytes.new }
{
    let mut r = s;
    let mut left = row;
    while let [a, b, rest @ ..] = left {
        r = item(line, *a, *b, r, numbers, bytes);
        left = rest;
    }
    r
}

// The items of a list, n times.
fn list_turns(
    line: &[u8],
    count: u64,
    row: &[u64],
    s: Cursor,
    numbers: &mut [u64],
    bytes: &mut [u8],
) -> Cursor
    requires { Inside line.now s numbers.old bytes.old }
    ensures { Advances line.now s numbers.old bytes.old (list_of (length numbers.old) (length bytes.old) count row.now (said_at line.now s numbers.old bytes.old)) result numbers.new bytes.new }
{
    let mut r = s;
    for _turn in 0..count {
        r = items(line, row, r, numbers, bytes);
    }
    r
}

// Reads a list: its items as often as was said last. Behind a bad word nothing is read: the number said last may be any.
fn list(
    line: &[u8],
    count: u64,
    row: &[u64],
    s: Cursor,
    numbers: &mut [u64],
    bytes: &mut [u8],
) -> Cursor
    requires { Inside line.now s numbers.old bytes.old }
    ensures { Advances line.now s numbers.old bytes.old (list_of (length numbers.old) (length bytes.old) count row.now (said_at line.now s numbers.old bytes.old)) result numbers.new bytes.new }
{
    if !s.good {
        return s;
    }
    list_turns(line, count, row, s, numbers, bytes)
}

// The first n items of a row, or all of fewer.
pub(crate) fn first_items(row: &[u64], count: u64) -> &[u64]
    ensures { result.now ≡ take (count * 2) row.now }
{
    if count > row.len() as u64 / 2 {
        return &row[0..];
    }
    let end = count as usize * 2;
    &row[0..end]
}

// The last of the first n numbers.
fn last_number(numbers: &[u64], count: usize) -> u64
    requires { count ≤ length numbers.now }
    ensures { result ≡ last_number (take count numbers.now) }
{
    if count == 0 {
        return 0;
    }
    numbers[count - 1]
}

// Reads one item; `row` is what stands behind it.
fn item_or_list(
    line: &[u8],
    skip: u64,
    a: u64,
    b: u64,
    row: &[u64],
    s: Cursor,
    numbers: &mut [u64],
    bytes: &mut [u8],
) -> Cursor
    requires { Inside line.now s numbers.old bytes.old }
    ensures { Advances line.now s numbers.old bytes.old (item_or_list_of (length numbers.old) (length bytes.old) skip a b row.now (said_at line.now s numbers.old bytes.old)) result numbers.new bytes.new }
{
    if skip > 0 {
        return s;
    }
    if a == LIST {
        let n = s.numbers;
        let count = last_number(numbers, n);
        return list(line, count, first_items(row, b), s, numbers, bytes);
    }
    item(line, a, b, s, numbers, bytes)
}

// How many items are left out behind an item.
fn left_out(skip: u64, a: u64, b: u64) -> u64
    ensures { result ≡ left_out_of skip a b }
{
    if skip > 0 {
        return skip - 1;
    }
    if a == LIST {
        return b;
    }
    0
}

// Whether all was well said and nothing stands behind.
fn all_said(s: Cursor, size: usize) -> bool
    ensures { result ≡ cond (eqb s.at size) s.good false }
{
    if s.at != size {
        return false;
    }
    s.good
}

// Reads a line behind its first word by a row.
pub(crate) fn read_row(line: &[u8], row: &[u64], numbers: &mut [u64], bytes: &mut [u8]) -> RowRead
    ensures { ReadsRow row.now line.now numbers.old bytes.old result numbers.new bytes.new }
{
    let mut r = Cursor {
        good: true,
        at: 0,
        numbers: 0,
        bytes: 0,
    };
    let mut skip = 0;
    let mut left = row;
    while let [a, b, rest @ ..] = left {
        r = item_or_list(line, skip, *a, *b, rest, r, numbers, bytes);
        skip = left_out(skip, *a, *b);
        left = rest;
    }
    RowRead {
        good: all_said(r, line.len()),
        bytes: r.bytes,
    }
}
