// The radio's own side.
ghost use Rattle.std.specs.Prelude.{◌≡◌, []};
ghost use Rattle.radio_end_state.specs.Calls.{status_told, queued_told, context_told, link_told, told};
ghost use Rattle.radio_end_words.specs.Words.{state_in};
ghost use Rattle.radio_end_telling.specs.Left.{Left};

use crate::{locate, settle};
use meaning::message::{ContextBytes, End};
use quantity::count::{ByteCount, LinkInstanceId};
use quantity::limit::{CHANNEL_IDS, HIGHEST_STATUS};
use quantity::refusal;
use quantity::refusal::Refusal;
use radio_end_message::message;
use radio_end_state::answer::Answer;
use radio_end_state::channel;
use radio_end_survey::survey;
use radio_end_words::{head, place};
use writable::part;

// A channel's status: 19, 12, 20, 18.
pub fn tell_status(words: &mut [u64], id: u8, value: u8, out: &mut [u8]) -> Result<Answer, Refusal>
    ensures { Left (status_told (state_in words.old) id value out.old) words.old result words.new out.new }
{
    let index = locate::find(words, id)?;
    if value > HIGHEST_STATUS {
        return settle::refused(refusal::NOT_WRITABLE);
    }
    let before = place::load(words, index);
    settle::channel(words, index, channel::with_status(before, value), out)
}

// The bytes queued on a channel: 19, 12, 18.
pub fn tell_queued(
    words: &mut [u64],
    id: u8,
    bytes: ByteCount,
    out: &mut [u8],
) -> Result<Answer, Refusal>
    ensures { Left (queued_told (state_in words.old) id bytes out.old) words.old result words.new out.new }
{
    let index = locate::find(words, id)?;
    let before = place::load(words, index);
    settle::channel(words, index, channel::with_queued(before, bytes), out)
}

// The Context, or that there is none: 19, 20, 18.
pub fn tell_context(
    words: &mut [u64],
    context: Option<(ContextBytes, usize)>,
    out: &mut [u8],
) -> Result<Answer, Refusal>
    ensures { Left (context_told (state_in words.old) context out.old) words.old result words.new out.new }
{
    if !survey::fits(words) {
        return settle::refused(refusal::OUTSIDE_LIMITS);
    }
    if !part::context(End::Radio, context) {
        return settle::refused(refusal::NOT_WRITABLE);
    }
    settle::context(words, context, out)
}

// The Link Instance, or that there is none; kept without a message: 19, 20.
pub fn tell_link(
    words: &mut [u64],
    instance: Option<(LinkInstanceId, usize)>,
) -> Result<Answer, Refusal>
    ensures { Left (link_told (state_in words.old) instance []) words.old result words.new [] }
{
    if !survey::fits(words) {
        return settle::refused(refusal::OUTSIDE_LIMITS);
    }
    if !part::instance(End::Radio, instance) {
        return settle::refused(refusal::NOT_WRITABLE);
    }
    head::save_instance(words, instance);
    Ok(Answer::Quiet)
}

// The message as it stands: 19, 18. It changes nothing.
pub fn tell(words: &[u64], out: &mut [u8]) -> Result<Answer, Refusal>
    ensures { Left (told (state_in words.now) out.old) words.now result words.now out.new }
{
    if !survey::fits(words) {
        return settle::refused(refusal::OUTSIDE_LIMITS);
    }
    let context = head::context(words);
    let count = place::count(words);
    let size = message::write(
        words,
        context,
        count,
        settle::no_channel(),
        [None; CHANNEL_IDS],
        out,
    )?;
    Ok(Answer::Answered(size))
}
