// One channel of the radio's end.
ghost use Rattle.std.specs.Prelude.{◌≡◌};
ghost use Rattle.radio_end_state.specs.Channel.{window_now, hearing_on, queueing, with_queued, with_status, channel_differs};

use meaning::message::Window;
use quantity::count::{ByteCount, FlowSequence};

// A channel's configuration: watermark and throughput per period in bytes.
#[derive(Clone, Copy)]
pub struct Setting {
    pub id: u8,
    pub controlled: bool,
    pub watermark: ByteCount,
    pub throughput: ByteCount,
}

#[derive(Clone, Copy)]
pub struct Channel {
    pub setting: Setting,
    pub status: u8,
    pub queued: ByteCount,
    pub highest: Option<FlowSequence>,
}

// The Flow Window as it stands.
pub fn window(channel: Channel) -> Option<Window>
    ensures { result ≡ window_now channel }
{
    let setting = channel.setting;
    let allowance = radio_flow::allowance(setting.watermark, setting.throughput, channel.queued);
    radio_flow::window(setting.controlled, channel.highest, allowance)
}

// The channel after what a message states of it.
pub fn hear(channel: Channel, stated: Option<FlowSequence>) -> Channel
    ensures { result ≡ hearing_on channel stated }
{
    let setting = channel.setting;
    let highest = radio_flow::heard(setting.controlled, channel.highest, stated);
    Channel { highest, ..channel }
}

// The bytes queued are set.
pub fn with_queued(channel: Channel, queued: ByteCount) -> Channel
    ensures { result ≡ with_queued channel queued }
{
    Channel { queued, ..channel }
}

// A packet of so many bytes is queued.
pub fn queue(channel: Channel, bytes: ByteCount) -> Channel
    ensures { result ≡ queueing channel bytes }
{
    with_queued(channel, radio_flow::queue(channel.queued, bytes))
}

pub fn with_status(channel: Channel, status: u8) -> Channel
    ensures { result ≡ with_status channel status }
{
    Channel { status, ..channel }
}

// Whether a status or a window differs from before.
pub fn differs(before: Channel, after: Channel) -> bool
    ensures { result ≡ channel_differs before after }
{
    if before.status != after.status {
        return true;
    }
    !radio_flow::same(window(before), window(after))
}
