// What a channel is.
ghost use Rattle.message_words.specs.Saying.{Says};
ghost use Rattle.station_print.specs.Shown.{window_texts, highest_texts, channel_texts};

use meaning::message::Window;
use message_words::part::labelled;
use quantity::count::FlowSequence;
use radio_end_state::channel;
use radio_end_state::channel::Channel;
use text::put;

fn window(out: &mut [u8], at: usize, window: Option<Window>) -> usize
    ensures { Says out.old at (window_texts window) result out.new }
{
    match window {
        None => put(out, at, b" -"),
        Some(Window::Empty) => put(out, at, b" none"),
        Some(Window::Given(number)) => labelled(out, at, b" ", number.0 as u64),
    }
}

fn highest(out: &mut [u8], at: usize, highest: Option<FlowSequence>) -> usize
    ensures { Says out.old at (highest_texts highest) result out.new }
{
    match highest {
        None => put(out, at, b" -"),
        Some(sequence) => labelled(out, at, b" ", sequence.0 as u64),
    }
}

// The answer to `show`.
pub fn channel(out: &mut [u8], channel: Channel) -> usize
    ensures { Says out.old 0 (channel_texts channel) result out.new }
{
    let sequence = channel.highest;
    let queued = channel.queued;
    let named = labelled(out, 0, b"channel ", channel.setting.id as u64);
    let reported = labelled(out, named, b" ", channel.status as u64);
    let granted = window(out, reported, channel::window(channel));
    let heard = highest(out, granted, sequence);
    labelled(out, heard, b" ", queued.0 as u64)
}
