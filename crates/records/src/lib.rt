// Records of a classic pcap file that a reader gives, read piece by piece into one lent buffer, which has room for the
// longest record with its head.
#![tactic(auto)]

ghost use Rattle.std.specs.Prelude.{◌≡◌, ◌+◌, ◌≤◌, ◌<◌, length, get_or};
ghost use Rattle.records.specs.Heads.{number_at, pair_at, is_right, order_of};
ghost use Rattle.records.specs.Unread.{start_of, held_of, behind_of, short_of, between_of, head_found, record_found, next_of, Refilled};
ghost use Rattle.records.specs.Reading.{came_by, record_in, Comes};

use quantity::refusal::{FILE_HEAD, RECORD};
use std::io::Read;

// The longest record that is taken.
const LONGEST: usize = 65536;

// Room for the longest record with its head.
pub const ROOM: usize = 65552;

const HEAD: usize = 24;

const RECORD_HEAD: usize = 16;

// "d4 c3 b2 a1" or "a1 b2 c3 d4" as the first four bytes spell it, the highest first.
const LITTLE_MAGIC: usize = 3569595041;

const BIG_MAGIC: usize = 2712847316;

const ETHERNET: usize = 1;

// How a file orders the bytes of its numbers, if its head is right.
#[derive(Clone, Copy)]
enum Order {
    Bad,
    Little,
    Big,
}

// What was read of a file and isn't handed on yet; whether its head was, and, from then on, whether the highest byte of
// its numbers comes first.
#[derive(Clone, Copy)]
pub struct Input {
    pub unread: lines::Input,
    pub opened: bool,
    pub big: bool,
}

// What stands next in a file.
#[derive(Clone, Copy)]
pub enum Found {
    // Not enough of it yet.
    More,
    // Nothing any more.
    End,
    // The file's head, and the input behind it.
    Head(Input),
    // A record of the buffer, how many bytes there were, and the input behind it.
    Record {
        from: usize,
        to: usize,
        original: usize,
        rest: Input,
    },
    // 25 or 26.
    Refused(u8),
}

// What a reader of records is handed: the next one, or why there is none.
#[derive(Clone, Copy)]
pub enum Came {
    // Nothing any more.
    End,
    // A record of the buffer, how many bytes there were, and the input behind it.
    Record {
        from: usize,
        to: usize,
        original: usize,
        rest: Input,
    },
    // 25 or 26.
    Refused(u8),
}

// Nothing is read yet.
pub fn start() -> Input
    ensures { result ≡ start_of }
{
    Input {
        unread: lines::start(),
        opened: false,
        big: false,
    }
}

// All n bytes of a file are held already.
pub fn held(n: usize) -> Input
    ensures { result ≡ held_of n }
{
    let unread = lines::Input {
        at: 0,
        have: n,
        over: false,
        ended: true,
        failed: false,
    };
    Input {
        unread,
        opened: false,
        big: false,
    }
}

// A number of two bytes, the higher first or last.
fn pair(bytes: &[u8], at: usize, big: bool) -> u16
    requires { at + 2 ≤ length bytes.now }
    ensures { result ≡ pair_at big at bytes.now }
{
    let pair = [bytes[at], bytes[at + 1]];
    if big {
        u16::from_be_bytes(pair)
    } else {
        u16::from_le_bytes(pair)
    }
}

// A number of four bytes.
fn number(bytes: &[u8], at: usize, big: bool) -> usize
    requires { at + 4 ≤ length bytes.now }
    ensures { result ≡ number_at big at bytes.now }
{
    let number = [bytes[at], bytes[at + 1], bytes[at + 2], bytes[at + 3]];
    if big {
        u32::from_be_bytes(number) as usize
    } else {
        u32::from_le_bytes(number) as usize
    }
}

// Whether a head is of version 2.4 and of Ethernet.
fn is_right(head: &[u8], big: bool) -> bool
    requires { 24 ≤ length head.now }
    ensures { result ≡ is_right big head.now }
{
    if pair(head, 4, big) != 2 {
        return false;
    }
    if pair(head, 6, big) != 4 {
        return false;
    }
    number(head, 20, big) == ETHERNET
}

// The byte order of a head that is right.
fn order_of(head: &[u8]) -> Order
    requires { 24 ≤ length head.now }
    ensures { result ≡ order_of head.now }
{
    let magic = number(head, 0, true);
    if magic == BIG_MAGIC {
        if is_right(head, true) {
            return Order::Big;
        }
        return Order::Bad;
    }
    if magic == LITTLE_MAGIC {
        if is_right(head, false) {
            return Order::Little;
        }
    }
    Order::Bad
}

// The input of an opened file behind n bytes.
fn behind(unread: lines::Input, n: usize, big: bool) -> Input
    requires { unread.at + n ≤ unread.have }
    ensures { result ≡ behind_of unread n big }
{
    let rest = lines::Input {
        at: unread.at + n,
        have: unread.have,
        over: false,
        ended: unread.ended,
        failed: unread.failed,
    };
    Input {
        unread: rest,
        opened: true,
        big,
    }
}

// What is found where there is too little of something: it is cut off, if nothing more comes.
fn short(ended: bool, number: u8) -> Found
    ensures { result ≡ short_of ended number }
{
    if ended {
        return Found::Refused(number);
    }
    Found::More
}

// What is found between two records: the end, if nothing more comes; where reading failed, the record that may follow
// is cut off.
fn between(unread: lines::Input) -> Found
    ensures { result ≡ between_of unread }
{
    if unread.ended {
        if unread.failed {
            return Found::Refused(RECORD);
        }
        return Found::End;
    }
    Found::More
}

// What is found of the file's head.
fn head_found(bytes: &[u8], unread: lines::Input) -> Found
    requires { unread.at + length bytes.now ≤ unread.have }
    ensures { result ≡ head_found bytes.now unread }
{
    if bytes.len() < HEAD {
        return short(unread.ended, FILE_HEAD);
    }
    match order_of(&bytes[0..HEAD]) {
        Order::Bad => Found::Refused(FILE_HEAD),
        Order::Little => Found::Head(behind(unread, HEAD, false)),
        Order::Big => Found::Head(behind(unread, HEAD, true)),
    }
}

// What is found of a record.
fn record_found(bytes: &[u8], unread: lines::Input, big: bool) -> Found
    requires { unread.at + length bytes.now ≤ unread.have }
    ensures { result ≡ record_found bytes.now unread big }
{
    if bytes.len() == 0 {
        return between(unread);
    }
    if bytes.len() < RECORD_HEAD {
        return short(unread.ended, RECORD);
    }
    let captured = number(bytes, 8, big);
    if LONGEST < captured {
        return Found::Refused(RECORD);
    }
    if bytes.len() - RECORD_HEAD < captured {
        return short(unread.ended, RECORD);
    }
    let from = unread.at + RECORD_HEAD;
    let to = from + captured;
    Found::Record {
        from,
        to,
        original: number(bytes, 12, big),
        rest: behind(unread, RECORD_HEAD + captured, big),
    }
}

// What stands next. An input that doesn't lie within the buffer is at its end.
pub fn next(buffer: &[u8], input: Input) -> Found
    ensures { result ≡ next_of buffer.now input }
{
    let unread = input.unread;
    if !lines::tidy(unread, buffer.len()) {
        return Found::End;
    }
    let at = unread.at;
    let have = unread.have;
    if input.opened {
        return record_found(&buffer[at..have], unread, input.big);
    }
    head_found(&buffer[at..have], unread)
}

// What is handed on of what stands next. What isn't whole, with nothing more to be read, is cut off; an opened file has no head.
fn handed(found: Found) -> Came
    ensures { result ≡ came_by found }
{
    match found {
        Found::More => Came::Refused(RECORD),
        Found::End => Came::End,
        Found::Head(_) => Came::Refused(FILE_HEAD),
        Found::Record {
            from,
            to,
            original,
            rest,
        } => Came::Record {
            from,
            to,
            original,
            rest,
        },
        Found::Refused(number) => Came::Refused(number),
    }
}

// The next record of a capture of which all is in memory; the file's head is passed over.
pub fn record_in(capture: &[u8], input: Input) -> Came
    ensures { result ≡ record_in capture.now input }
{
    match next(capture, input) {
        Found::Head(rest) => handed(next(capture, rest)),
        found => handed(found),
    }
}

// Moves what is unread to the start of the buffer and reads more behind it.
pub fn fill<R: Read>(reader: &mut R, buffer: &mut [u8], input: Input) -> Input
    ensures { Refilled buffer.old input result buffer.new }
{
    let unread = input.unread;
    let more = lines::fill(reader, buffer, unread);
    Input {
        unread: more,
        opened: input.opened,
        big: input.big,
    }
}

// Hands over the next record, or says why there is none, reading more as it is needed; the file's head is passed over. Nothing says that an input ends,
// so the turns are counted, and what isn't whole by then is cut off.
pub fn read_record<R: Read>(reader: &mut R, buffer: &mut [u8], input: Input) -> Came
    ensures { Comes buffer.old input result buffer.new }
{
    let mut at = input;
    for _turn in 0..u64::MAX {
        match next(buffer, at) {
            Found::More => at = fill(reader, buffer, at),
            Found::End => return Came::End,
            Found::Head(rest) => at = rest,
            Found::Record {
                from,
                to,
                original,
                rest,
            } => {
                return Came::Record {
                    from,
                    to,
                    original,
                    rest,
                };
            }
            Found::Refused(number) => return Came::Refused(number),
        }
    }
    Came::Refused(RECORD)
}
