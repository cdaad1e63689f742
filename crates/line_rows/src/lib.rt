// One reader for the lines of any program. What a command's words are is a row of items, two numbers for each:
//   NUMBER most     a number up to `most`
//   BYTES 0         a byte string
//   LIST n          the next n items, as often as the number before says
//   OPTIONAL key    the keyword `key`, or no word: 1 or 0
//   key key2        one of two keywords: 0 or 1 (a keyword that must stand there is `key key`)
// A key is a keyword of up to 8 bytes, its first byte in the lowest place. Each word says one number, a byte string its length.
// A part that may be missing is `OPTIONAL key, LIST n` and its n items. Lists don't nest.
// A program's table has, for each command, the key of its first word, the number of its row's items, and the row.
#![tactic(auto)]

mod row;
mod table;
mod word;

pub use table::{Told, read, shortened};

pub const NUMBER: u64 = 0;

pub const BYTES: u64 = 1;

pub const LIST: u64 = 2;

pub const OPTIONAL: u64 = 3;
