// What the words say of a channel, of the Link Instance and the Context that are kept, and of the pacer. Nothing is changed.
ghost use Rattle.std.specs.Prelude.{◌≡◌, true};
ghost use Rattle.ips_state.specs.Limits.{state_fits, sizes};
ghost use Rattle.ips_words.specs.Words.{state_in};
ghost use Rattle.endpoint.specs.Shown.{shown_of, kept_of, pacer_of};

use crate::channel;
use ips_channel::state;
use ips_channel::state::{Channel, Setting};
use ips_words::head;
use ips_words_survey::place::Found;
use ips_words_survey::{place, survey};
use meaning::message::ContextBytes;
use pacer::Pacer;
use quantity::count::{ByteCount, FlowSequence, LinkInstanceId};
use quantity::refusal::Refusal;

// Where a channel stands and where its store starts, or the refusal; and the channel, if it is found.
#[derive(Clone, Copy)]
pub struct ChannelShown {
    pub place: Result<Found, u8>,
    pub channel: Channel,
}

// The Link Instance as last given, and the Context of the last accepted control message.
#[derive(Clone, Copy)]
pub struct KeptShown {
    pub instance: Option<(LinkInstanceId, usize)>,
    pub context: Option<(ContextBytes, usize)>,
}

// The length of the memory that a state within the limits asks for.
fn memory_asked(words: &[u64]) -> usize
    ensures { state_fits (state_in words.now) ≡ true → result ≡ sizes (state_in words.now).channels }
{
    match survey::survey_words(words, 0) {
        Some(survey) => survey.total.0,
        None => 0,
    }
}

// 19, then 12.
pub fn find_channel(words: &[u64], id: u8) -> ChannelShown
    ensures { result ≡ shown_of (state_in words.now) id }
{
    let place = place::find(words, id, memory_asked(words));
    let channel = match place {
        Ok(found) => channel::load(words, found.index),
        Err(_) => {
            let nothing = Setting {
                id: 0,
                controlled: false,
                size: ByteCount(0),
            };
            state::fresh(nothing, FlowSequence(0))
        }
    };
    ChannelShown { place, channel }
}

// 19, or what is kept of the radio's messages.
pub fn kept(words: &[u64]) -> Result<KeptShown, Refusal>
    ensures { result ≡ kept_of (state_in words.now) }
{
    survey::judge(words)?;
    Ok(KeptShown {
        instance: head::instance(words),
        context: head::context(words),
    })
}

// 19, or the pacer: HelloTime and silence limit, its clock, the last query due, the last accepted control message.
pub fn pacer(words: &[u64]) -> Result<Pacer, Refusal>
    ensures { result ≡ pacer_of (state_in words.now) }
{
    survey::judge(words)?;
    Ok(head::pacer(words))
}
