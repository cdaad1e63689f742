// What stands in the words, as numbers. Nothing of the state is changed.
ghost use Rattle.std.specs.Prelude.{◌≡◌, ◌≤◌};
ghost use Rattle.quantity.specs.Limits.{MOST-WAITING};
ghost use Rattle.ips_words.specs.Words.{state_in};
ghost use Rattle.nespovarda.specs.Shown.{channel_numbers, kept_numbers, pacer_numbers, WaitingAt, ShowsChannel, ShowsWaiting, ShowsKept, ShowsPacer};

use answer_codes::{Answer, KEPT, NONE_THERE, PACER_SHOWN, SHOWN, plain, refused};
use endpoint::{Channel, Pacer, Refusal};
use ips_words::{slot, waiting};
use lent_messages::stated;
use meaning::message::ContextBytes;
use quantity::count::LinkInstanceId;

// How many numbers are shown of a channel, of a waiting packet, of what is kept, and of the pacer.
pub const CHANNEL_NUMBERS: usize = 9;

pub const WAITING_NUMBERS: usize = 2;

pub const KEPT_NUMBERS: usize = 4;

pub const PACER_NUMBERS: usize = 5;

// Reported or not, status, flow state, window, sequence, latest time, how many packets wait, and where the store starts and how long it is.
fn show(channel: Channel, start: usize, shown: &mut [u64; CHANNEL_NUMBERS])
    ensures { shown.new ≡ channel_numbers channel start }
{
    let setting = channel.setting;
    let status = channel.status;
    let flow = channel.flow;
    let queue = channel.queue;
    *shown = [
        slot::status_tag(status),
        slot::status_value(status),
        slot::flow_tag(flow),
        slot::flow_window(flow),
        channel.sequence.0 as u64,
        channel.latest,
        waiting::wide(queue.count),
        waiting::wide(start),
        waiting::wide(setting.size.0),
    ];
}

// `SHOWN` and the channel's numbers; or 19, 12.
pub fn nespovarda_show(words: &[u64], channel: u8, shown: &mut [u64; CHANNEL_NUMBERS]) -> Answer
    ensures { ShowsChannel (state_in words.now) channel shown.old result shown.new }
{
    let found = endpoint::find_channel(words, channel);
    let place = found.place;
    match place {
        Ok(at) => {
            show(found.channel, at.start, shown);
            plain(SHOWN)
        }
        Err(number) => refused(Refusal { number, place: 0 }),
    }
}

// `SHOWN` and the length and the expiry of the packet at a position of those that wait on a channel; or `NONE_THERE`.
fn show_waiting(channel: Channel, position: usize, shown: &mut [u64; WAITING_NUMBERS]) -> Answer
    requires { channel.queue.count ≤ MOST-WAITING }
    ensures { WaitingAt channel position shown.old result shown.new }
{
    let queue = channel.queue;
    if queue.count <= position {
        return plain(NONE_THERE);
    }
    let entry = queue.entries[position];
    *shown = [waiting::wide(entry.length.0), entry.expiry];
    plain(SHOWN)
}

// As `show_waiting`; or 19, 12.
pub fn nespovarda_waiting(
    words: &[u64],
    channel: u8,
    position: u64,
    shown: &mut [u64; WAITING_NUMBERS],
) -> Answer
    ensures { ShowsWaiting (state_in words.now) channel position shown.old result shown.new }
{
    let found = endpoint::find_channel(words, channel);
    let place = found.place;
    match place {
        Ok(_) => show_waiting(found.channel, waiting::narrow(position), shown),
        Err(number) => refused(Refusal { number, place: 0 }),
    }
}

// Of each the length, 0 where there is none, and the number that the bytes spell.
fn show_kept(
    link: Option<(LinkInstanceId, usize)>,
    kept: Option<(ContextBytes, usize)>,
    shown: &mut [u64; KEPT_NUMBERS],
)
    ensures { shown.new ≡ kept_numbers link kept }
{
    let given = stated::instance(link);
    let before = stated::context(kept);
    *shown = [given.second, given.first, before.second, before.first];
}

// `KEPT` with the Link Instance as last given and the Context of the last accepted control message; or 19.
pub fn nespovarda_kept(words: &[u64], shown: &mut [u64; KEPT_NUMBERS]) -> Answer
    ensures { ShowsKept (state_in words.now) shown.old result shown.new }
{
    match endpoint::kept(words) {
        Ok(held) => {
            show_kept(held.instance, held.context, shown);
            plain(KEPT)
        }
        Err(refusal) => refused(refusal),
    }
}

// HelloTime and silence limit, the clock, and when a query was last due and a control message last accepted.
fn show_pacer(pacer: Pacer, shown: &mut [u64; PACER_NUMBERS])
    ensures { shown.new ≡ pacer_numbers pacer }
{
    *shown = [
        pacer.hello,
        pacer.limit,
        pacer.clock,
        pacer.due,
        pacer.heard,
    ];
}

// `PACER_SHOWN` and the pacer's numbers; or 19.
pub fn nespovarda_pacer(words: &[u64], shown: &mut [u64; PACER_NUMBERS]) -> Answer
    ensures { ShowsPacer (state_in words.now) shown.old result shown.new }
{
    match endpoint::pacer(words) {
        Ok(pacer) => {
            show_pacer(pacer, shown);
            plain(PACER_SHOWN)
        }
        Err(refusal) => refused(refusal),
    }
}
