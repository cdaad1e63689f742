// One part of the words: a label with its numbers, or nothing where the message states nothing.
ghost use Rattle.std.specs.Prelude.{◌≡◌, [], ◌∷◌, min, length};
ghost use Rattle.quantity.specs.Limits.{LONGEST-NAME};
ghost use Rattle.wire.specs.Numbers.{bytes_of};
ghost use Rattle.text.specs.Strings.{bytes_text};
ghost use Rattle.text.specs.Laying.{decimal_text};
ghost use Rattle.message_words.specs.Saying.{Says};
ghost use Rattle.message_words.specs.Phrases.{SPACE, datalink_texts, instance_texts, context_texts, status_texts, sequence_texts, window_texts, counted_texts, channel_texts, expiration_texts};

use meaning::message::{ContextBytes, Window};
use quantity::count::{DatalinkId, FlowSequence, LinkInstanceId};
use quantity::limit::LONGEST_NAME;
use text::{put, put_bytes, put_number};

// A label and a number.
pub fn labelled(out: &mut [u8], at: usize, label: &[u8], value: u64) -> usize
    ensures { Says out.old at (label.now ∷ (decimal_text value ∷ [])) result out.new }
{
    let behind = put(out, at, label);
    put_number(out, behind, value)
}

// A label and two numbers.
pub fn paired(out: &mut [u8], at: usize, label: &[u8], first: u64, second: u64) -> usize
    ensures { Says out.old at (label.now ∷ (decimal_text first ∷ (SPACE ∷ (decimal_text second ∷ [])))) result out.new }
{
    let behind = labelled(out, at, label, first);
    labelled(out, behind, b" ", second)
}

// The Datalink ID, first of a message's words.
pub fn datalink(out: &mut [u8], at: usize, stated: Option<DatalinkId>) -> usize
    ensures { Says out.old at (datalink_texts stated) result out.new }
{
    let Some(id) = stated else {
        return at;
    };
    labelled(out, at, b" ", id.0 as u64)
}

// ` link LENGTH NUMBER`.
pub fn instance(out: &mut [u8], at: usize, stated: Option<(LinkInstanceId, usize)>) -> usize
    ensures { Says out.old at (instance_texts stated) result out.new }
{
    let Some((id, length)) = stated else {
        return at;
    };
    paired(out, at, b" link ", length as u64, id.0)
}

// A number's bytes, as many as are lent, as a byte string.
fn spelt(out: &mut [u8], at: usize, value: u64, bytes: &mut [u8]) -> usize
    ensures { Says out.old at (bytes_text (bytes_of (length bytes.old) value) ∷ []) result out.new }
{
    wire::number::write(bytes, value);
    put_bytes(out, at, bytes)
}

// ` context BYTES`.
pub fn context(out: &mut [u8], at: usize, stated: Option<(ContextBytes, usize)>) -> usize
    ensures { Says out.old at (context_texts stated) result out.new }
{
    let Some((value, length)) = stated else {
        return at;
    };
    let n = length.min(LONGEST_NAME);
    let behind = put(out, at, b" context ");
    let mut bytes = [0u8; LONGEST_NAME];
    spelt(out, behind, value.0, &mut bytes[0..n])
}

// ` status CHANNEL VALUE`.
pub fn status(out: &mut [u8], at: usize, channel: u8, stated: Option<u8>) -> usize
    ensures { Says out.old at (status_texts channel stated) result out.new }
{
    let Some(value) = stated else {
        return at;
    };
    paired(out, at, b" status ", channel as u64, value as u64)
}

// ` sequence CHANNEL VALUE`.
pub fn sequence(out: &mut [u8], at: usize, channel: u8, stated: Option<FlowSequence>) -> usize
    ensures { Says out.old at (sequence_texts channel stated) result out.new }
{
    let Some(value) = stated else {
        return at;
    };
    paired(out, at, b" sequence ", channel as u64, value.0 as u64)
}

// ` window CHANNEL VALUE`, or `none` for one without the field.
pub fn window(out: &mut [u8], at: usize, channel: u8, stated: Option<Window>) -> usize
    ensures { Says out.old at (window_texts channel stated) result out.new }
{
    match stated {
        None => at,
        Some(Window::Empty) => {
            let behind = labelled(out, at, b" window ", channel as u64);
            put(out, behind, b" none")
        }
        Some(Window::Given(value)) => paired(out, at, b" window ", channel as u64, value.0 as u64),
    }
}

// A data message's Flow Sequence, with its channel.
pub fn counted(out: &mut [u8], at: usize, stated: Option<(u8, FlowSequence)>) -> usize
    ensures { Says out.old at (counted_texts stated) result out.new }
{
    let Some((channel, value)) = stated else {
        return at;
    };
    paired(out, at, b" sequence ", channel as u64, value.0 as u64)
}

// ` channel CHANNEL`.
pub fn channel(out: &mut [u8], at: usize, stated: Option<u8>) -> usize
    ensures { Says out.old at (channel_texts stated) result out.new }
{
    let Some(id) = stated else {
        return at;
    };
    labelled(out, at, b" channel ", id as u64)
}

// ` expiration TIME`.
pub fn expiration(out: &mut [u8], at: usize, stated: Option<u32>) -> usize
    ensures { Says out.old at (expiration_texts stated) result out.new }
{
    let Some(time) = stated else {
        return at;
    };
    labelled(out, at, b" expiration ", time as u64)
}
