// A channel, by value; its store is lent beside it.
ghost use Rattle.std.specs.Prelude.{◌≡◌};
ghost use Rattle.ips_channel.specs.Channel.{fresh_channel, with_queue};

use flow::Flow;
use meaning::status::StatusCodes;
use quantity::count::{ByteCount, DatalinkId, FlowSequence};
use store::queue;
use store::queue::Queue;

// How the datalink is configured, for all of its channels.
#[derive(Clone, Copy)]
pub struct DatalinkSetting {
    pub id: DatalinkId,
    // Which of the statuses 8 to 15 are operational.
    pub codes: StatusCodes,
}

// How a channel is configured.
#[derive(Clone, Copy)]
pub struct Setting {
    pub id: u8,
    // Flow-controlled, or else plain.
    pub controlled: bool,
    // The length of its store.
    pub size: ByteCount,
}

#[derive(Clone, Copy)]
pub struct Channel {
    pub setting: Setting,
    // `None` while it is not reported.
    pub status: Option<u8>,
    pub flow: Flow,
    pub sequence: FlowSequence,
    pub latest: u64,
    pub queue: Queue,
}

// A channel that starts: not reported, its first sequence, time 0, nothing waiting.
#[tactic(auto, unfolding(crate::specs::Channel::fresh_channel))]
pub fn fresh(setting: Setting, first: FlowSequence) -> Channel
    ensures { result ≡ fresh_channel setting first }
{
    let flow = flow::first(setting.controlled);
    let queue = queue::empty();
    Channel {
        setting,
        status: None,
        flow,
        sequence: first,
        latest: 0,
        queue,
    }
}

// The channel with what waits on it now, and a time that was accepted.
#[tactic(auto, unfolding(crate::specs::Channel::with_queue))]
pub fn with_queue(channel: Channel, queue: Queue, time: u64) -> Channel
    ensures { result ≡ with_queue channel queue time }
{
    Channel {
        queue,
        latest: time,
        ..channel
    }
}
