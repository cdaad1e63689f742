// A whole meaning, and a refusal.
ghost use Rattle.message_words.specs.Saying.{Says};
ghost use Rattle.message_words.specs.Phrases.{tables_texts, control_texts, data_texts, refused_texts};

use crate::part::{channel, context, counted, datalink, expiration, instance, paired};
use crate::table::table;
use meaning::message::{Control, Data};
use quantity::refusal::Refusal;
use text::{put, put_bytes};

// The three tables, one behind another.
fn tables(out: &mut [u8], at: usize, message: Control) -> usize
    ensures { Says out.old at (tables_texts message) result out.new }
{
    let behind = table(out, at, &message.statuses);
    let further = table(out, behind, &message.sequences);
    table(out, further, &message.windows)
}

// A control message's meaning in words.
pub fn control(out: &mut [u8], at: usize, message: Control) -> usize
    ensures { Says out.old at (control_texts message) result out.new }
{
    let id = message.datalink;
    let link = message.instance;
    let place = message.context;
    let plane = put(out, at, b"control");
    let named = datalink(out, plane, id);
    let linked = instance(out, named, link);
    let placed = context(out, linked, place);
    tables(out, placed, message)
}

// A data message's meaning in words, and its packet.
pub fn data(out: &mut [u8], at: usize, message: Data, packet: &[u8]) -> usize
    ensures { Says out.old at (data_texts message packet.now) result out.new }
{
    let id = message.datalink;
    let sequence = message.sequence;
    let carrier = message.channel;
    let time = message.expiration;
    let plane = put(out, at, b"data");
    let named = datalink(out, plane, id);
    let numbered = counted(out, named, sequence);
    let channelled = channel(out, numbered, carrier);
    let expiring = expiration(out, channelled, time);
    let label = put(out, expiring, b" packet ");
    put_bytes(out, label, packet)
}

// `refused NUMBER PLACE`.
pub fn refused(out: &mut [u8], at: usize, refusal: Refusal) -> usize
    ensures { Says out.old at (refused_texts refusal) result out.new }
{
    paired(
        out,
        at,
        b"refused ",
        refusal.number as u64,
        refusal.place as u64,
    )
}
