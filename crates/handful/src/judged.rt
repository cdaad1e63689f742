// Number 24: more than 32 packets, lists of unequal count, or lengths whose sum isn't the buffer's length.
ghost use Rattle.std.specs.Prelude.{◌≡◌, eqb};
ghost use Rattle.handful.specs.Handful.{sum_of, is_handful};
ghost use Rattle.handful.specs.Offering.{handful_in};

use ips_words::waiting;
use quantity::limit::MOST_AT_ONCE;

// Whether the lengths come to so many bytes: what is left of these never falls below 0, so no sum can wrap.
fn adds_up(lengths: &[u64], bytes: usize) -> bool
    ensures { result ≡ eqb (sum_of lengths.now) bytes }
{
    let mut left = bytes;
    for each in lengths {
        let length = waiting::narrow(*each);
        if length > left {
            return false;
        }
        left -= length;
    }
    left == 0
}

// What is handed in: the packets end to end, for each its channel, its expiry and its length, and one time for all.
#[derive(Clone, Copy)]
pub(crate) struct Handed<'a> {
    pub channels: &'a [u8],
    pub expiries: &'a [u64],
    pub lengths: &'a [u64],
    pub packets: &'a [u8],
    pub time: u64,
}

#[tactic(auto, unfolding(crate::specs::Handful::is_handful))]
pub(crate) fn is_handful(handed: Handed<'_>, answers: usize) -> bool
    ensures { result ≡ is_handful (handful_in handed.entry) answers }
{
    let count = handed.channels.len();
    count <= MOST_AT_ONCE
        && (handed.expiries.len() == count
            && (handed.lengths.len() == count
                && (answers == count && adds_up(handed.lengths, handed.packets.len()))))
}
