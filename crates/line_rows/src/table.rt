// A line, read by the row of its first word.
ghost use Rattle.std.specs.Prelude.{◌≡◌};
ghost use Rattle.line_rows.specs.Tables.{named_of, items_left, command_of, key_of, items_behind, shortened, Reads};

use crate::row::{first_items, read_row};
use crate::word::spells;
use text::{head, tail};

// "It may be 140,000 bytes long."
const LONGEST_LINE: usize = 140000;

// The key of the command that a line is, or 0 for a line that is none; and how many bytes it said.
#[derive(Clone, Copy)]
pub struct Told {
    pub key: u64,
    pub bytes: usize,
}

// A longer line is read as an empty one, which is no command.
pub fn shortened(line: &[u8]) -> &[u8]
    ensures { result.now ≡ shortened line.now }
{
    if line.len() > LONGEST_LINE {
        return &[];
    }
    line
}

// Whether a command stands here and a word names it.
fn named(skip: u64, name: &[u8], key: u64) -> bool
    ensures { result ≡ named_of skip name.now key }
{
    if skip > 0 {
        return false;
    }
    spells(name, key)
}

// How many items stand before the next command.
fn items_left(skip: u64, count: u64) -> u64
    ensures { result ≡ items_left skip count }
{
    if skip > 0 {
        return skip - 1;
    }
    count
}

// A table from the command on that a word names; empty where it names none.
fn find<'a>(name: &[u8], table: &'a [u64]) -> &'a [u64]
    ensures { result.now ≡ command_of 0 name.now table.now }
{
    let mut skip = 0;
    let mut left = table;
    while let [key, count, rest @ ..] = left {
        if named(skip, name, *key) {
            return left;
        }
        skip = items_left(skip, *count);
        left = rest;
    }
    &[]
}

// The key of a table's first command.
#[tactic(auto, unfolding(crate::specs::Tables::key_of))]
fn key_of(table: &[u64]) -> u64
    ensures { result ≡ key_of table.now }
{
    match table {
        [key, ..] => *key,
        [] => 0,
    }
}

// The row of a table's first command.
fn items_behind(table: &[u64]) -> &[u64]
    ensures { result.now ≡ items_behind table.now }
{
    match table {
        [_, count, items @ ..] => first_items(items, *count),
        _ => &[],
    }
}

// Reads a line by a table. The numbers and the bytes that it says stand at the start of the lent slices.
pub fn read(line: &[u8], table: &[u64], numbers: &mut [u64], bytes: &mut [u8]) -> Told
    ensures { Reads table.now line.now numbers.old bytes.old result numbers.new bytes.new }
{
    let command = find(head(line), table);
    let said = read_row(tail(line), items_behind(command), numbers, bytes);
    if said.good {
        return Told {
            key: key_of(command),
            bytes: said.bytes,
        };
    }
    Told {
        key: 0,
        bytes: said.bytes,
    }
}
