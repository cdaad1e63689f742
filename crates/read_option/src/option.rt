// What one option states, by its content: each kind tests the length (4), then the value (5).
ghost use Rattle.std.specs.Prelude.{◌≡◌, cond, Ok, Err};
ghost use Rattle.quantity.specs.Refusals.{UNLISTED};
ghost use Rattle.meaning.specs.Kinds.{among, known, length_listed, DATALINK-IDENTIFIER, LINK-INSTANCE, DATALINK-CONTEXT, CHANNEL-STATUS, FLOW-WINDOW, CHANNEL-IDENTIFIER, EXPIRATION-TIME, FLOW-SEQUENCE};
ghost use Rattle.read_option.specs.Items.{stated_of, answer_of, number_of, Placed};

use crate::answer::Item;
use meaning::kind;
use meaning::message::{ContextBytes, End, Plane, Window};
use quantity::count::{DatalinkId, FlowSequence, FlowWindow, LinkInstanceId};
use quantity::limit::{LONGEST_NAME, RESERVED_CHANNEL, SHORTEST_NAME};
use quantity::refusal::{LENGTH, UNLISTED, VALUE};
use wire::number;

fn datalink(content: &[u8]) -> Result<Item, u8>
    ensures { result ≡ stated_of DATALINK-IDENTIFIER content.now }
{
    if content.len() != 1 {
        return Err(LENGTH);
    }
    Ok(Item::Datalink(DatalinkId(content[0])))
}

// The lengths of a Link Instance; those of a Context are the same.
fn is_instance_length(n: usize) -> bool
    ensures { result ≡ length_listed LINK-INSTANCE n }
{
    if n < SHORTEST_NAME {
        return false;
    }
    n <= LONGEST_NAME
}

fn instance(content: &[u8]) -> Result<Item, u8>
    ensures { result ≡ stated_of LINK-INSTANCE content.now }
{
    let n = content.len();
    if !is_instance_length(n) {
        return Err(LENGTH);
    }
    Ok(Item::Instance(LinkInstanceId(number::read(content)), n))
}

fn context(content: &[u8]) -> Result<Item, u8>
    ensures { result ≡ stated_of DATALINK-CONTEXT content.now }
{
    let n = content.len();
    if !is_instance_length(n) {
        return Err(LENGTH);
    }
    Ok(Item::Context(ContextBytes(number::read(content)), n))
}

fn status(content: &[u8]) -> Result<Item, u8>
    ensures { result ≡ stated_of CHANNEL-STATUS content.now }
{
    if content.len() != 2 {
        return Err(LENGTH);
    }
    let channel = content[0];
    if RESERVED_CHANNEL <= channel {
        return Err(VALUE);
    }
    // the four higher bits are unused
    Ok(Item::Status(channel, content[1] % 16))
}

// A Flow Window's field may be left out.
fn is_window_length(n: usize) -> bool
    ensures { result ≡ length_listed FLOW-WINDOW n }
{
    match n {
        1 => true,
        5 => true,
        _ => false,
    }
}

fn window(content: &[u8]) -> Result<Item, u8>
    ensures { result ≡ stated_of FLOW-WINDOW content.now }
{
    let n = content.len();
    if !is_window_length(n) {
        return Err(LENGTH);
    }
    let channel = content[0];
    if RESERVED_CHANNEL <= channel {
        return Err(VALUE);
    }
    if n == 1 {
        return Ok(Item::Window(channel, Some(Window::Empty)));
    }
    let word = number::read(&content[1..]) as u32;
    Ok(Item::Window(channel, Some(Window::Given(FlowWindow(word)))))
}

fn channel(content: &[u8]) -> Result<Item, u8>
    ensures { result ≡ stated_of CHANNEL-IDENTIFIER content.now }
{
    if content.len() != 1 {
        return Err(LENGTH);
    }
    let id = content[0];
    if RESERVED_CHANNEL <= id {
        return Err(VALUE);
    }
    Ok(Item::Channel(id))
}

fn expiration(content: &[u8]) -> Result<Item, u8>
    ensures { result ≡ stated_of EXPIRATION-TIME content.now }
{
    if content.len() != 4 {
        return Err(LENGTH);
    }
    let time = number::read(content);
    // section 3.3.9 reserves 0
    if time == 0 {
        return Err(VALUE);
    }
    Ok(Item::Expiration(time as u32))
}

fn sequence(content: &[u8]) -> Result<Item, u8>
    ensures { result ≡ stated_of FLOW-SEQUENCE content.now }
{
    if content.len() != 5 {
        return Err(LENGTH);
    }
    let channel = content[0];
    if RESERVED_CHANNEL <= channel {
        return Err(VALUE);
    }
    let word = number::read(&content[1..]) as u32;
    Ok(Item::Sequence(channel, FlowSequence(word)))
}

// An option that a message doesn't list: 6; an unknown one is skipped.
fn unlisted(kind: u8) -> Result<Item, u8>
    ensures { result ≡ cond (among kind known) (Err UNLISTED) (Ok Item.Skipped) }
{
    if kind::is_known(kind) {
        return Err(UNLISTED);
    }
    Ok(Item::Skipped)
}

// An option in a control message of an end: 6, 4, 5, or what it states. Each walk over options has its own such function, so that the compiler
// moves it there: one that two walks call stays a call that hands its answer over in memory (docs/SPEED.md).
pub fn of_control(end: End, kind: u8, content: &[u8]) -> Result<Item, u8>
    ensures value { result ≡ answer_of Plane.Control end kind content.now }
    ensures placed { Placed result }
{
    if !kind::may_hold(Plane::Control, end, kind) {
        return unlisted(kind);
    }
    // Flow Sequence is the one left at the end.
    match kind {
        kind::DATALINK_IDENTIFIER => datalink(content),
        kind::LINK_INSTANCE => instance(content),
        kind::DATALINK_CONTEXT => context(content),
        kind::CHANNEL_STATUS => status(content),
        kind::FLOW_WINDOW => window(content),
        _ => sequence(content),
    }
}

// The same for the walk that notes a control message in tables.
pub fn of_noted(end: End, kind: u8, content: &[u8]) -> Result<Item, u8>
    ensures value { result ≡ answer_of Plane.Control end kind content.now }
    ensures placed { Placed result }
{
    if !kind::may_hold(Plane::Control, end, kind) {
        return unlisted(kind);
    }
    // Flow Sequence is the one left at the end.
    match kind {
        kind::DATALINK_IDENTIFIER => datalink(content),
        kind::LINK_INSTANCE => instance(content),
        kind::DATALINK_CONTEXT => context(content),
        kind::CHANNEL_STATUS => status(content),
        kind::FLOW_WINDOW => window(content),
        _ => sequence(content),
    }
}

// An option in a data message of an end. Packet Data may have any content.
pub fn of_data(end: End, kind: u8, content: &[u8]) -> Result<Item, u8>
    ensures value { result ≡ answer_of Plane.Data end kind content.now }
    ensures placed { Placed result }
{
    if !kind::may_hold(Plane::Data, end, kind) {
        return unlisted(kind);
    }
    // Flow Sequence is the one left at the end.
    match kind {
        kind::DATALINK_IDENTIFIER => datalink(content),
        kind::PACKET_DATA => Ok(Item::Packet),
        kind::CHANNEL_IDENTIFIER => channel(content),
        kind::EXPIRATION_TIME => expiration(content),
        _ => sequence(content),
    }
}

// The same for the walk that finds no packet.
pub fn of_data_alone(end: End, kind: u8, content: &[u8]) -> Result<Item, u8>
    ensures value { result ≡ answer_of Plane.Data end kind content.now }
    ensures placed { Placed result }
{
    if !kind::may_hold(Plane::Data, end, kind) {
        return unlisted(kind);
    }
    // Flow Sequence is the one left at the end.
    match kind {
        kind::DATALINK_IDENTIFIER => datalink(content),
        kind::PACKET_DATA => Ok(Item::Packet),
        kind::CHANNEL_IDENTIFIER => channel(content),
        kind::EXPIRATION_TIME => expiration(content),
        _ => sequence(content),
    }
}

// The number that an option is refused by; 0 where it was taken.
pub fn number_of(answer: Result<Item, u8>) -> u8
    ensures { result ≡ number_of answer }
{
    match answer {
        Ok(_) => 0,
        Err(number) => number,
    }
}
