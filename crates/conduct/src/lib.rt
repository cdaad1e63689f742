// Judging another maker's session from its capture: for each channel, whether every data message obeyed, in a lent slice of words.
#![tactic(auto)]

ghost use Rattle.std.specs.Prelude.{◌≡◌, ◌+◌, ◌*◌, length, get_or, set, replicate};
ghost use Rattle.ethernet.specs.Layers.{datagram_of};
ghost use Rattle.quantity.specs.Limits.{CHANNEL-IDS};
ghost use Rattle.conduct.specs.Outcomes.{heard_in, sent_in, outcome_of, seen_in, seen_of, one_more_of, tallied_by};
ghost use Rattle.conduct.specs.Words.{heard_up_to, packet_judged, undecided, judged_by, finding_by, finding_of};

pub mod verdict;

pub use crate::verdict::{Finding, Seen, Tally};
use conduct_rules::kept;
use ethernet::{Kind, Ports};
use meaning::message::{End, Window};
use quantity::count::{ByteCount, DatalinkId, FlowSequence};
use quantity::limit::CHANNEL_IDS;
use reader::answer::Verdict;
use reader::{control, data};

// Where each number stands: whether the capture is undecided, then for each Channel ID its first breach, its flow and its base.
const UNDECIDED: usize = 0;

const BREACH: usize = 1;

const FLOW: usize = 2;

const BASE: usize = 3;

// How many words a channel has.
const EACH: usize = 3;

// All words.
pub const WORDS: usize = 766;

// A word, or 0 where there is none.
fn word(words: &[u64], place: usize) -> u64
    ensures { result ≡ get_or words.now place 0 }
{
    words.get(place).copied().unwrap_or(0)
}

// A word set, if there is such a place.
fn put(words: &mut [u64], place: usize, value: u64)
    ensures { words.new ≡ set words.old place value }
{
    if place < words.len() {
        words[place] = value;
    }
}

// Nothing seen yet: all words are zero.
pub fn start(words: &mut [u64])
    ensures { words.new ≡ replicate (length words.old) 0 }
{
    words.fill(0);
}

// A radio control message: each channel's flow is what it states of it.
fn hear(words: &mut [u64], cells: [Option<Window>; CHANNEL_IDS])
    ensures { words.new ≡ heard_up_to CHANNEL-IDS cells words.old }
{
    for (i, cell) in cells.iter().enumerate() {
        put(words, FLOW + EACH * i, kept::flow_word(*cell));
    }
}

// A data message: whether it obeys by what is kept of its channel, and the base that it leaves.
#[tactic(auto, unfolding(crate::specs::Words::packet_judged))]
fn judge_packet(
    words: &mut [u64],
    number: u64,
    channel: u8,
    bytes: ByteCount,
    carried: Option<FlowSequence>,
)
    ensures { words.new ≡ packet_judged number channel bytes carried words.old }
{
    let first = EACH * (channel as usize);
    let breach = word(words, BREACH + first);
    let flow = word(words, FLOW + first);
    let base = word(words, BASE + first);
    let obeyed = conduct_rules::obeys(kept::flow_in(flow), kept::base_in(base), bytes, carried);
    put(
        words,
        BREACH + first,
        kept::breach_after(breach, number, obeyed),
    );
    put(words, BASE + first, kept::base_after(base, carried));
}

fn judge_radio(words: &mut [u64], number: u64, datagram: &[u8], id: DatalinkId)
    ensures { words.new ≡ judged_by number (heard_in id datagram.now) words.old }
{
    let reading = control::read(datagram, End::Radio, id);
    if let Verdict::Accepted = reading.verdict {
        hear(words, reading.message.windows);
    }
}

// A data message without a Channel Identifier is one of channel 0.
#[tactic(auto, using(reader::proofs::Carried::carried_reading_lem, reader::proofs::Carried::carried_size, reader::proofs::Carried::carried_within))]
fn judge_ips(words: &mut [u64], number: u64, datagram: &[u8], id: DatalinkId) -> Seen
    ensures words { words.new ≡ judged_by number (sent_in id datagram.now) words.old }
    ensures seen { result ≡ seen_in (sent_in id datagram.now) }
{
    let carried = data::read_with_packet(datagram, End::Ips, id);
    let Verdict::Accepted = carried.reading.verdict else {
        return Seen::Other;
    };
    let message = carried.reading.message;
    judge_packet(
        words,
        number,
        message.channel.unwrap_or(0),
        ByteCount(datagram.len() - carried.start),
        message.sequence.map(|(_, sequence)| sequence),
    );
    Seen::Judged
}

// The capture was refused, or a record leaves it open what was said: undecided for all channels.
pub fn undecide(words: &mut [u64])
    ensures { words.new ≡ undecided words.old }
{
    put(words, UNDECIDED, 1);
}

// A record, by its number: how many bytes there were, those that were kept, the ports of the two ends, and the configured Datalink ID.
#[tactic(auto, unfolding(crate::specs::Outcomes::outcome_by, crate::specs::Outcomes::seen_by))]
pub fn judge(
    words: &mut [u64],
    number: u64,
    frame: &[u8],
    original: usize,
    ports: Ports,
    id: DatalinkId,
) -> Seen
    ensures words { words.new ≡ judged_by number (outcome_of ports id original frame.now) words.old }
    ensures seen { result ≡ seen_of ports id original frame.now }
{
    match ethernet::kind_of(frame, original, ports) {
        Kind::Ips => judge_ips(words, number, ethernet::datagram(frame), id),
        Kind::Radio => {
            judge_radio(words, number, ethernet::datagram(frame), id);
            Seen::Other
        }
        Kind::Shortened | Kind::Fragment => {
            undecide(words);
            Seen::Skipped
        }
        Kind::Short
        | Kind::OtherType
        | Kind::NotIpv4
        | Kind::OtherProtocol
        | Kind::Ipv4Length
        | Kind::UdpLength
        | Kind::OtherPort => Seen::Skipped,
    }
}

// One more, up to the most that a word holds.
fn one_more(count: u64) -> u64
    ensures { result ≡ one_more_of count }
{
    count.saturating_add(1)
}

// The counts with a record more.
pub fn tallied(tally: Tally, seen: Seen) -> Tally
    ensures { result ≡ tallied_by tally seen }
{
    match seen {
        Seen::Skipped => Tally {
            judged: tally.judged,
            skipped: one_more(tally.skipped),
        },
        Seen::Judged => Tally {
            judged: one_more(tally.judged),
            skipped: tally.skipped,
        },
        Seen::Other => tally,
    }
}

fn finding_by(undecided: u64, breach: u64) -> Finding
    ensures { result ≡ finding_by undecided breach }
{
    if undecided != 0 {
        return Finding::Undecided;
    }
    if breach == 0 {
        return Finding::Passes;
    }
    Finding::Breach(breach)
}

// What is found of a channel by the records judged so far.
pub fn finding(words: &[u64], channel: u8) -> Finding
    ensures { result ≡ finding_of words.now channel }
{
    finding_by(
        word(words, UNDECIDED),
        word(words, BREACH + EACH * (channel as usize)),
    )
}
