// What C calls of `nespovarda::messages`: each call of it under the same clauses.
ghost use Rattle.message_calls.specs.Calls.{ReadsControl, ReadsData, WritesControl, WritesData};

use answer_codes::Answer;

#[unsafe(no_mangle)]
pub extern "C" fn nespovarda_read_control(
    datagram: &[u8],
    end: u8,
    datalink: u8,
    meaning: &mut [u64],
) -> Answer
    ensures { ReadsControl datagram.now end datalink meaning.old result meaning.new }
{
    nespovarda::messages::nespovarda_read_control(datagram, end, datalink, meaning)
}

#[unsafe(no_mangle)]
pub extern "C" fn nespovarda_read_data(
    datagram: &[u8],
    end: u8,
    datalink: u8,
    parts: &mut [u64],
) -> Answer
    ensures { ReadsData datagram.now end datalink parts.old result parts.new }
{
    nespovarda::messages::nespovarda_read_data(datagram, end, datalink, parts)
}

#[unsafe(no_mangle)]
pub extern "C" fn nespovarda_write_control(end: u8, meaning: &[u64], out: &mut [u8]) -> Answer
    ensures { WritesControl end meaning.now out.old result out.new }
{
    nespovarda::messages::nespovarda_write_control(end, meaning, out)
}

#[unsafe(no_mangle)]
pub extern "C" fn nespovarda_write_data(
    end: u8,
    parts: &[u64],
    packet: &[u8],
    out: &mut [u8],
) -> Answer
    ensures { WritesData end parts.now packet.now out.old result out.new }
{
    nespovarda::messages::nespovarda_write_data(end, parts, packet, out)
}
