// Reading and writing a message, with what it says in lent words.
ghost use Rattle.message_calls.specs.Calls.{ReadsControl, ReadsData, WritesControl, WritesData};

use answer_codes::Answer;
use message_calls::{reading, writing};

pub fn nespovarda_read_control(
    datagram: &[u8],
    end: u8,
    datalink: u8,
    meaning: &mut [u64],
) -> Answer
    ensures { ReadsControl datagram.now end datalink meaning.old result meaning.new }
{
    reading::read_control(datagram, end, datalink, meaning)
}

pub fn nespovarda_read_data(datagram: &[u8], end: u8, datalink: u8, parts: &mut [u64]) -> Answer
    ensures { ReadsData datagram.now end datalink parts.old result parts.new }
{
    reading::read_data(datagram, end, datalink, parts)
}

pub fn nespovarda_write_control(end: u8, meaning: &[u64], out: &mut [u8]) -> Answer
    ensures { WritesControl end meaning.now out.old result out.new }
{
    writing::write_control(end, meaning, out)
}

pub fn nespovarda_write_data(end: u8, parts: &[u64], packet: &[u8], out: &mut [u8]) -> Answer
    ensures { WritesData end parts.now packet.now out.old result out.new }
{
    writing::write_data(end, parts, packet, out)
}
