// A change made, and the message written where a status, the Context or a window differs from before. At 18 nothing is changed.
ghost use Rattle.std.specs.Prelude.{◌≡◌, true, replicate, Err};
ghost use Rattle.quantity.specs.Limits.{CHANNEL-IDS};
ghost use Rattle.meaning.specs.declared.message.End.TheVariants as ends;
ghost use Rattle.writable.specs.Allowed.{context_allowed};
ghost use Rattle.radio_end_state.specs.State.{no_channel, with_channel, with_context};
ghost use Rattle.radio_end_state.specs.Limits.{state_fits};
ghost use Rattle.radio_end_state.specs.Calls.{refused_by, settling};
ghost use Rattle.radio_end_words.specs.Words.{state_in};
ghost use Rattle.radio_end_telling.specs.Left.{Left, Settles};

use meaning::message::ContextBytes;
use quantity::count::ByteCount;
use quantity::limit::CHANNEL_IDS;
use quantity::refusal::Refusal;
use radio_end_message::message;
use radio_end_state::answer::Answer;
use radio_end_state::channel::{Channel, Setting};
use radio_end_state::{answer, channel};
use radio_end_words::{head, place};

// A refusal at place 0.
pub fn refused<T>(number: u8) -> Result<T, Refusal>
    ensures { result ≡ Err (record { number = number; place = 0 }) }
{
    Err(Refusal { number, place: 0 })
}

// No channel takes the place of another.
pub fn no_channel() -> Channel
    ensures { result ≡ no_channel }
{
    let setting = Setting {
        id: 0,
        controlled: false,
        watermark: ByteCount(0),
        throughput: ByteCount(0),
    };
    Channel {
        setting,
        status: 0,
        queued: ByteCount(0),
        highest: None,
    }
}

// The channel at an index becomes this one.
pub fn channel(
    words: &mut [u64],
    index: usize,
    after: Channel,
    out: &mut [u8],
) -> Result<Answer, Refusal>
    requires { Settles words.old (state_in words.old) index after }
    ensures { Left (settling (state_in words.old) (with_channel (state_in words.old) index after) out.old) words.old result words.new out.new }
{
    let before = place::load(words, index);
    if !channel::differs(before, after) {
        place::save(words, index, after);
        return Ok(Answer::Quiet);
    }
    let context = head::context(words);
    let size = message::write(words, context, index, after, [None; CHANNEL_IDS], out)?;
    place::save(words, index, after);
    Ok(Answer::Unasked(size))
}

// The Context becomes this one.
pub fn context(
    words: &mut [u64],
    after: Option<(ContextBytes, usize)>,
    out: &mut [u8],
) -> Result<Answer, Refusal>
    requires words_value { state_fits (state_in words.old) ≡ true }
    requires after_value { context_allowed ends.Radio after ≡ true }
    ensures { Left (settling (state_in words.old) (with_context (state_in words.old) after) out.old) words.old result words.new out.new }
{
    let before = head::context(words);
    if answer::same_context(before, after) {
        head::save_context(words, after);
        return Ok(Answer::Quiet);
    }
    let count = place::count(words);
    let size = message::write(words, after, count, no_channel(), [None; CHANNEL_IDS], out)?;
    head::save_context(words, after);
    Ok(Answer::Unasked(size))
}
