// The session script: reads a line, writes its answer, and stops early only where reading or writing fails. A command is a row of `session_read`'s table and a call here.
#![tactic(auto)]

ghost use Rattle.std.specs.Prelude.{◌≡◌, ◌≤◌, length, take};
ghost use Rattle.session.specs.Answers.{Answers};

use endpoint::{Channel, MOST_WORDS, Refusal};
use lines::Found;
use message_words::whole::refused;
use quantity::limit::{LARGEST_STORE, LONGEST_DATAGRAM, MOST_CHANNELS};
use session_print::about_state;
use session_read::{
    Asked, CONFIGURATION_WORDS, Command, Line, ListCounts, MOST_LISTED, StartWords,
};
use std::io::Read;

// The longest line of 140,000 bytes stands in the buffer with its newline.
const ROOM: usize = 140001;

// The longest answer is a store of 65,536 bytes in hexadecimal, with a word before it.
const ANSWER: usize = 140000;

// The bytes that a line says have half its length at most.
const BYTES: usize = 70000;

// All stores that the endpoint takes.
const MEMORY: usize = MOST_CHANNELS * LARGEST_STORE;

// How much of the words and of the memory is lent with a state.
#[derive(Clone, Copy)]
struct Held {
    words: usize,
    memory: usize,
}

// The state that is held behind a line, once one was started, and how long the line's answer is.
#[derive(Clone, Copy)]
struct Turn {
    held: Option<Held>,
    count: usize,
}

// What was held stays, and the answer is so long.
fn still_held(held: Option<Held>, count: usize) -> Turn
    ensures { result.count ≡ count }
{
    Turn { held, count }
}

// The words of a configuration, which stand at the start of those that were lent for it.
fn configured(configuration: &[u64], words: usize) -> &[u64] {
    let count = words.min(configuration.len());
    &configuration[0..count]
}

// `start ..`: a refused one leaves words and memory as they were, so the state before it goes on.
fn start_line(
    held: Option<Held>,
    words: &mut [u64],
    memory: &mut [u8],
    said: StartWords,
    configuration: &[u64; CONFIGURATION_WORDS],
    out: &mut [u8],
) -> Turn {
    let words_lent = endpoint::words_for(said.channels).min(words.len());
    let memory_lent = said.memory.min(memory.len());
    let answer = endpoint::start(
        &mut words[0..words_lent],
        &mut memory[0..memory_lent],
        configured(configuration, said.words),
    );
    let count = session_print::started(out, 0, answer);
    match answer {
        Ok(()) => Turn {
            held: Some(Held {
                words: words_lent,
                memory: memory_lent,
            }),
            count,
        },
        Err(_) => still_held(held, count),
    }
}

// `offer CHANNEL NOW EXPIRY HEX`
fn offer_line(
    words: &mut [u64],
    memory: &mut [u8],
    id: u8,
    time: u64,
    expiry: u64,
    packet: &[u8],
    out: &mut [u8],
) -> usize {
    let answer = endpoint::offer(words, memory, id, packet, expiry, time);
    session_print::offered(out, 0, answer)
}

// So many of the words from a place on.
fn listed(words: &[u64], from: usize, count: usize) -> &[u64] {
    let start = from.min(words.len());
    let size = count.min(words.len() - start);
    &words[start..start + size]
}

// Channels as bytes: a line says none above 255.
fn lay_bytes(words: &[u64], bytes: &mut [u8; MOST_LISTED]) {
    for (byte, word) in bytes.iter_mut().zip(words) {
        *byte = (*word % 256) as u8;
    }
}

// The first bytes of a list.
fn first_listed(bytes: &[u8; MOST_LISTED], count: usize) -> &[u8] {
    let all = &bytes[..];
    let size = count.min(all.len());
    &all[0..size]
}

// `offers NOW ..`: the three lists stand one behind the other.
fn offers_line(
    words: &mut [u64],
    memory: &mut [u8],
    time: u64,
    counts: ListCounts,
    lists: &[u64; CONFIGURATION_WORDS],
    packets: &[u8],
    out: &mut [u8],
) -> usize {
    let mut channels = [0u8; MOST_LISTED];
    let mut answers = [0u8; MOST_LISTED];
    let answer_count = counts.answers.min(MOST_LISTED);
    let channel_count = counts.channels.min(MOST_LISTED);
    let behind = channel_count + counts.expiries.min(MOST_LISTED);
    lay_bytes(listed(lists, 0, counts.channels), &mut channels);
    let answer = handful::offers(
        words,
        memory,
        first_listed(&channels, counts.channels),
        listed(lists, channel_count, counts.expiries),
        listed(lists, behind, counts.lengths),
        packets,
        time,
        &mut answers[0..answer_count],
    );
    match answer {
        Ok(()) => session_print::handed(out, 0, first_listed(&answers, counts.answers)),
        Err(refusal) => refused(out, 0, refusal),
    }
}

// `next CHANNEL NOW ROOM`
fn next_line(
    words: &mut [u64],
    memory: &mut [u8],
    id: u8,
    time: u64,
    room: usize,
    output: &mut [u8],
    out: &mut [u8],
) -> usize {
    let size = room.min(output.len());
    let answer = endpoint::next(words, memory, id, time, &mut output[0..size]);
    session_print::asked(out, 0, answer, output)
}

// `withdraw CHANNEL`
fn withdraw_line(words: &mut [u64], memory: &mut [u8], id: u8, out: &mut [u8]) -> usize {
    let answer = endpoint::withdraw(words, memory, id);
    session_print::emptied(out, 0, answer)
}

// `radio NOW HEX`
fn radio_line(words: &mut [u64], time: u64, datagram: &[u8], out: &mut [u8]) -> usize {
    let answer = endpoint::hand_in(words, time, datagram);
    session_print::heard(out, 0, answer)
}

// `pace NOW`
fn pace_line(words: &mut [u64], time: u64, out: &mut [u8]) -> usize {
    let answer = endpoint::pace(words, time);
    session_print::paced(out, 0, answer)
}

// `query ROOM`
fn query_line(words: &[u64], room: usize, output: &mut [u8], out: &mut [u8]) -> usize {
    let size = room.min(output.len());
    let answer = endpoint::query(words, &mut output[0..size]);
    session_print::queried(out, 0, answer, output)
}

// `show CHANNEL`
fn show_line(words: &[u64], id: u8, out: &mut [u8]) -> usize {
    let shown = endpoint::find_channel(words, id);
    let place = shown.place;
    match place {
        Ok(_) => session_print::channel(out, 0, shown.channel),
        Err(number) => refused(out, 0, Refusal { number, place: 0 }),
    }
}

// Every byte of a channel's store, which starts there in the memory.
fn stored(channel: Channel, memory: &[u8], start: usize, out: &mut [u8]) -> usize {
    let size = channel.setting.size;
    let from = start.min(memory.len());
    let long = size.0.min(memory.len() - from);
    session_print::held(out, 0, &memory[from..from + long])
}

// `store CHANNEL`
fn store_line(words: &[u64], memory: &[u8], id: u8, out: &mut [u8]) -> usize {
    let shown = endpoint::find_channel(words, id);
    let place = shown.place;
    match place {
        Ok(found) => stored(shown.channel, memory, found.start, out),
        Err(number) => refused(out, 0, Refusal { number, place: 0 }),
    }
}

// `kept`
fn kept_line(words: &[u64], out: &mut [u8]) -> usize {
    match endpoint::kept(words) {
        Ok(shown) => session_print::kept(out, 0, shown.instance, shown.context),
        Err(refusal) => refused(out, 0, refusal),
    }
}

// `pacer`
fn pacer_line(words: &[u64], out: &mut [u8]) -> usize {
    match endpoint::pacer(words) {
        Ok(pacer) => session_print::pacer(out, 0, pacer),
        Err(refusal) => refused(out, 0, refusal),
    }
}

// A line about a state that was started, on the words and the memory that are lent with it.
fn command_line(
    words: &mut [u64],
    memory: &mut [u8],
    command: Command,
    lists: &[u64; CONFIGURATION_WORDS],
    bytes: &[u8],
    output: &mut [u8],
    out: &mut [u8],
) -> usize {
    match command {
        Command::Offer(id, time, expiry) => offer_line(words, memory, id, time, expiry, bytes, out),
        Command::Offers(time, counts) => {
            offers_line(words, memory, time, counts, lists, bytes, out)
        }
        Command::Next(id, time, room) => next_line(words, memory, id, time, room, output, out),
        Command::Withdraw(id) => withdraw_line(words, memory, id, out),
        Command::Radio(time) => radio_line(words, time, bytes, out),
        Command::Pace(time) => pace_line(words, time, out),
        Command::Query(room) => query_line(words, room, output, out),
        Command::Show(id) => show_line(words, id, out),
        Command::Store(id) => store_line(words, memory, id, out),
        Command::Kept => kept_line(words, out),
        Command::Pacer => pacer_line(words, out),
    }
}

// A start, or a line about the state that is held.
fn state_line(
    held: Option<Held>,
    words: &mut [u64],
    memory: &mut [u8],
    said: Line,
    configuration: &[u64; CONFIGURATION_WORDS],
    bytes: &[u8],
    output: &mut [u8],
    out: &mut [u8],
) -> Turn {
    let Asked::State(command) = said.asked else {
        return start_line(held, words, memory, said.start, configuration, out);
    };
    let Some(lent) = held else {
        return still_held(held, session_print::bad_line(out));
    };
    let words_lent = lent.words.min(words.len());
    let memory_lent = lent.memory.min(memory.len());
    let count = command_line(
        &mut words[0..words_lent],
        &mut memory[0..memory_lent],
        command,
        configuration,
        bytes,
        output,
        out,
    );
    still_held(held, count)
}

// Any line. One that isn't about a state is answered as its definition says.
#[tactic(auto, using(session_print::proofs::Lines::bytes_within))]
fn answer_line(
    held: Option<Held>,
    words: &mut [u64],
    memory: &mut [u8],
    line: &[u8],
    bytes: &mut [u8],
    output: &mut [u8],
    out: &mut [u8],
) -> Turn
    ensures { Answers (length bytes.old) (length output.old) line.now out.old result.count out.new }
{
    let mut configuration = [0u64; CONFIGURATION_WORDS];
    let said = session_read::read(line, &mut configuration, bytes);
    let asked = said.asked;
    if about_state(asked) {
        return state_line(
            held,
            words,
            memory,
            said,
            &configuration,
            &bytes[..said.bytes],
            output,
            out,
        );
    }
    still_held(
        held,
        session_print::message(asked, &bytes[..said.bytes], output, out),
    )
}

// Says something on standard error, where nothing is left to say of what can't be written there.
// Each program has its own `complain` and `print`: `Print` promises nothing of what it writes, and a public function promises its whole outcome.
fn complain(complaints: &impl Print, text: &[u8]) {
    let _said = complaints.write_all(text).is_ok();
}

// Prints the first bytes of a stretch. Whether they were written; if not, that is said on standard error.
fn print(printer: &impl Print, complaints: &impl Print, out: &[u8], count: usize) -> bool {
    if count <= out.len() {
        if printer.write_all(&out[0..count]).is_ok() {
            return true;
        }
    }
    complain(complaints, &lines::UNWRITTEN);
    false
}

// Prints the answer to a line. Whether it was written.
fn say(
    printer: &impl Print,
    complaints: &impl Print,
    held: &mut Option<Held>,
    words: &mut [u64],
    memory: &mut [u8],
    line: &[u8],
    bytes: &mut [u8],
    output: &mut [u8],
    out: &mut [u8],
) -> bool {
    let turn = answer_line(*held, words, memory, line, bytes, output, out);
    *held = turn.held;
    let end = text::put(out, turn.count, b"\n");
    print(printer, complaints, out, end)
}

// Not one loop with the other script's: a shared loop would be public, and would have to say by a relation of its closure's calls what each line was.
// Answers line after line, up to the end or to what can't be read or written. Nothing says that an input ends, so the turns are counted.
#[tactic(auto, using(lines::proofs::Laws::next_inside))]
fn serve(
    reader: &mut impl Read,
    printer: &impl Print,
    complaints: &impl Print,
    buffer: &mut [u8],
    words: &mut [u64],
    memory: &mut [u8],
    bytes: &mut [u8],
    output: &mut [u8],
    out: &mut [u8],
) {
    let mut held = None;
    let mut input = lines::start();
    for _turn in 0..u64::MAX {
        // A line that was dropped is answered as an empty one.
        let (from, to, rest) = match lines::next(buffer, input) {
            Found::More => {
                input = lines::fill(reader, buffer, input);
                continue;
            }
            Found::End => return,
            Found::Line { from, to, rest } => (from, to, rest),
            Found::Over(rest) => (0, 0, rest),
            Found::Failed => {
                complain(complaints, &lines::UNREAD);
                return;
            }
        };
        let line = &buffer[from..to];
        if !say(
            printer, complaints, &mut held, words, memory, line, bytes, output, out,
        ) {
            return;
        }
        input = rest;
    }
}

// An array that is lent as an array asks no proof of its length. Lent as slices by `main`, the check runs out of stack at the longest of them.
fn hold(
    reader: &mut impl Read,
    printer: &impl Print,
    complaints: &impl Print,
    buffer: &mut [u8; ROOM],
    words: &mut [u64; MOST_WORDS],
    memory: &mut [u8; MEMORY],
    bytes: &mut [u8; BYTES],
    output: &mut [u8; LONGEST_DATAGRAM],
    out: &mut [u8; ANSWER],
) {
    serve(
        reader, printer, complaints, buffer, words, memory, bytes, output, out,
    );
}

fn main(rt: HostRuntime) {
    let mut reader = rt.stdin();
    let printer = rt.stdout();
    let complaints = rt.stderr();
    let mut buffer = [0u8; ROOM];
    let mut words = [0u64; MOST_WORDS];
    let mut memory = [0u8; MEMORY];
    let mut bytes = [0u8; BYTES];
    let mut output = [0u8; LONGEST_DATAGRAM];
    let mut out = [0u8; ANSWER];
    hold(
        &mut reader,
        &printer,
        &complaints,
        &mut buffer,
        &mut words,
        &mut memory,
        &mut bytes,
        &mut output,
        &mut out,
    );
}
