// What a channel is, what its store holds, and what a state keeps beside its channels.
ghost use Rattle.message_words.specs.Saying.{Says};
ghost use Rattle.session_print.specs.Shown.{status_texts, flow_texts, waiting_texts, channel_texts, store_texts, kept_texts, pacer_texts};

use flow::Flow;
use ips_channel::state::Channel;
use meaning::message::ContextBytes;
use message_words::part::{context, instance, labelled, paired};
use pacer::Pacer;
use quantity::count::LinkInstanceId;
use quantity::limit::MOST_WAITING;
use store::queue::Queue;
use text::{put, put_bytes};

fn status(out: &mut [u8], at: usize, status: Option<u8>) -> usize
    ensures { Says out.old at (status_texts status) result out.new }
{
    match status {
        None => put(out, at, b" -"),
        Some(code) => labelled(out, at, b" ", code as u64),
    }
}

fn flow(out: &mut [u8], at: usize, flow: Flow) -> usize
    ensures { Says out.old at (flow_texts flow) result out.new }
{
    match flow {
        Flow::Free => put(out, at, b" free"),
        Flow::NoWindow => put(out, at, b" none"),
        Flow::InForce(window) => labelled(out, at, b" ", window.0 as u64),
    }
}

// The length and the expiry of each packet that waits.
fn waiting(out: &mut [u8], at: usize, queue: Queue) -> usize
    ensures { Says out.old at (waiting_texts queue) result out.new }
{
    let count = queue.count;
    let mut behind = labelled(out, at, b" ", count as u64);
    for entry in &queue.entries[..count.min(MOST_WAITING)] {
        behind = paired(out, behind, b" ", entry.length.0 as u64, entry.expiry);
    }
    behind
}

// The answer to `show`.
pub fn channel(out: &mut [u8], at: usize, channel: Channel) -> usize
    ensures { Says out.old at (channel_texts channel) result out.new }
{
    let code = channel.status;
    let rule = channel.flow;
    let sequence = channel.sequence;
    let queue = channel.queue;
    let named = labelled(out, at, b"channel ", channel.setting.id as u64);
    let reported = status(out, named, code);
    let ruled = flow(out, reported, rule);
    let counted = labelled(out, ruled, b" ", sequence.0 as u64);
    let timed = labelled(out, counted, b" ", channel.latest);
    waiting(out, timed, queue)
}

// The answer to `store`: every byte of it.
pub fn held(out: &mut [u8], at: usize, store: &[u8]) -> usize
    ensures { Says out.old at (store_texts store.now) result out.new }
{
    let behind = put(out, at, b"store ");
    put_bytes(out, behind, store)
}

// The Link Instance and the Context, each where there is one.
pub fn kept(
    out: &mut [u8],
    at: usize,
    link: Option<(LinkInstanceId, usize)>,
    place: Option<(ContextBytes, usize)>,
) -> usize
    ensures { Says out.old at (kept_texts link place) result out.new }
{
    let label = put(out, at, b"kept");
    let linked = instance(out, label, link);
    context(out, linked, place)
}

// The answer to `pacer`: its three times.
pub fn pacer(out: &mut [u8], at: usize, pacer: Pacer) -> usize
    ensures { Says out.old at (pacer_texts pacer) result out.new }
{
    let clock = labelled(out, at, b"pacer ", pacer.clock);
    paired(out, clock, b" ", pacer.due, pacer.heard)
}
