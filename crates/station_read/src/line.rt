// A line, read.
ghost use Rattle.std.specs.Prelude.{◌≡◌};
ghost use Rattle.station_read.specs.Lines.{configuration_in, Asks};

use crate::asked::{Asked, asks};
use crate::table::{COMMANDS, PLACES};

// What a line asks for, and how many bytes it says.
#[derive(Clone, Copy)]
pub struct Line {
    pub asked: Asked,
    pub bytes: usize,
}

// Reads a line. The numbers that it says stand at the start of the lent words, zeros behind them; the bytes that it says stand at the start of the lent memory.
pub fn read(line: &[u8], numbers: &mut [u64; PLACES], lent: &mut [u8]) -> Line
    ensures { Asks lent.old line.now result numbers.new lent.new }
{
    *numbers = [0u64; PLACES];
    let told = line_rows::read(line_rows::shortened(line), &COMMANDS, numbers, lent);
    let asked = asks(told.key, numbers);
    Line {
        asked,
        bytes: told.bytes,
    }
}

// The words of the configuration that a `start` of so many channels says: its first numbers, or all where they are fewer.
pub fn configuration(numbers: &[u64], channels: usize) -> &[u64]
    ensures { result.now ≡ configuration_in numbers.now channels }
{
    if numbers.len() < 2 {
        return &numbers[0..];
    }
    if channels > (numbers.len() - 2) / 4 {
        return &numbers[0..];
    }
    let end = 2 + 4 * channels;
    &numbers[0..end]
}
