// One thing that a message may state, as numbers and back.
ghost use Rattle.std.specs.Prelude.{◌≡◌, ℕ, ◌<◌, true};
ghost use Rattle.lent_messages.specs.Layout.{BYTE, HALF, GIVEN, FIELD-GIVEN};
ghost use Rattle.lent_messages.specs.Stated.{fits, unstated, stated_as, one_stated, instance_stated, context_stated, window_stated, counted_stated, one_of, instance_of, context_of, window_of, counted_of};

use crate::layout::{ABSENT, FIELD_EMPTY, FIELD_GIVEN, GIVEN};
use meaning::message::{ContextBytes, Window};
use quantity::count::{DatalinkId, FlowSequence, FlowWindow, LinkInstanceId};

// The tag and the numbers of what is stated, 0 where there are fewer.
#[derive(Clone, Copy)]
pub struct Stated {
    pub tag: u64,
    pub first: u64,
    pub second: u64,
}

// What may be stated as one number.
pub trait Number: Copy {
    ghost value: { Self → ℕ };

    ghost valued: { ℕ → Self };

    // Each value's number is below it.
    ghost limit: { ℕ };

    fn number(self) -> u64
        ensures { result ≡ value self };

    fn numbered(number: u64) -> Self
        requires { number < limit }
        ensures { result ≡ valued number };
}

impl Number for u8 {
    ghost value = { λ number. number };

    ghost valued = { λ number. number };

    ghost limit = { BYTE };

    fn number(self) -> u64 {
        self as u64
    }

    fn numbered(number: u64) -> u8 {
        number as u8
    }
}

impl Number for u32 {
    ghost value = { λ number. number };

    ghost valued = { λ number. number };

    ghost limit = { HALF };

    fn number(self) -> u64 {
        self as u64
    }

    fn numbered(number: u64) -> u32 {
        number as u32
    }
}

impl Number for DatalinkId {
    ghost value = { λ id. id.0 };

    ghost valued = { λ number. record { 0 = number } };

    ghost limit = { BYTE };

    fn number(self) -> u64 {
        self.0 as u64
    }

    fn numbered(number: u64) -> DatalinkId {
        DatalinkId(number as u8)
    }
}

impl Number for FlowSequence {
    ghost value = { λ sequence. sequence.0 };

    ghost valued = { λ number. record { 0 = number } };

    ghost limit = { HALF };

    fn number(self) -> u64 {
        self.0 as u64
    }

    fn numbered(number: u64) -> FlowSequence {
        FlowSequence(number as u32)
    }
}

// A tag that there is: below the one that gives a value, or that one, with a value below the limit.
pub fn fits(tag: u64, given: u64, value: u64, limit: u64) -> bool
    ensures { result ≡ fits tag given value limit }
{
    tag < given || (tag == given && value < limit)
}

// Nothing is stated.
fn nothing() -> Stated
    ensures { result ≡ unstated }
{
    Stated {
        tag: ABSENT,
        first: 0,
        second: 0,
    }
}

fn given(first: u64, second: u64) -> Stated
    ensures { result ≡ stated_as first second }
{
    Stated {
        tag: GIVEN,
        first,
        second,
    }
}

// A Datalink ID, a status, a Flow Sequence, a Channel ID or an expiration.
pub fn one<T: Number>(stated: Option<T>) -> Stated
    ensures { result ≡ one_stated T.value stated }
{
    match stated {
        None => nothing(),
        Some(value) => given(value.number(), 0),
    }
}

// A Link Instance, and below a Context: kept two, since one generic over both asks for a limit of 2^64, which is none.
pub fn instance(stated: Option<(LinkInstanceId, usize)>) -> Stated
    ensures { result ≡ instance_stated stated }
{
    match stated {
        None => nothing(),
        Some((id, length)) => given(id.0, length as u64),
    }
}

pub fn context(stated: Option<(ContextBytes, usize)>) -> Stated
    ensures { result ≡ context_stated stated }
{
    match stated {
        None => nothing(),
        Some((bytes, length)) => given(bytes.0, length as u64),
    }
}

pub fn counted(stated: Option<(u8, FlowSequence)>) -> Stated
    ensures { result ≡ counted_stated stated }
{
    match stated {
        None => nothing(),
        Some((channel, sequence)) => given(channel as u64, sequence.0 as u64),
    }
}

pub fn window(stated: Option<Window>) -> Stated
    ensures { result ≡ window_stated stated }
{
    match stated {
        None => nothing(),
        Some(Window::Empty) => Stated {
            tag: FIELD_EMPTY,
            first: 0,
            second: 0,
        },
        Some(Window::Given(window)) => Stated {
            tag: FIELD_GIVEN,
            first: window.0 as u64,
            second: 0,
        },
    }
}

pub fn one_of<T: Number>(tag: u64, value: u64) -> Option<T>
    requires { fits tag GIVEN value T.limit ≡ true }
    ensures { result ≡ one_of T.valued tag value }
{
    if tag == ABSENT {
        return None;
    }
    Some(T::numbered(value))
}

pub fn instance_of(tag: u64, value: u64, length: u64) -> Option<(LinkInstanceId, usize)>
    ensures { result ≡ instance_of tag value length }
{
    if tag == ABSENT {
        return None;
    }
    Some((LinkInstanceId(value), length as usize))
}

pub fn context_of(tag: u64, value: u64, length: u64) -> Option<(ContextBytes, usize)>
    ensures { result ≡ context_of tag value length }
{
    if tag == ABSENT {
        return None;
    }
    Some((ContextBytes(value), length as usize))
}

pub fn counted_of(tag: u64, channel: u64, sequence: u64) -> Option<(u8, FlowSequence)>
    requires channel_value { fits tag GIVEN channel BYTE ≡ true }
    requires sequence_value { fits tag GIVEN sequence HALF ≡ true }
    ensures { result ≡ counted_of tag channel sequence }
{
    if tag == ABSENT {
        return None;
    }
    Some((channel as u8, FlowSequence(sequence as u32)))
}

pub fn window_of(tag: u64, value: u64) -> Option<Window>
    requires { fits tag FIELD-GIVEN value HALF ≡ true }
    ensures { result ≡ window_of tag value }
{
    if tag == ABSENT {
        return None;
    }
    if tag == FIELD_EMPTY {
        return Some(Window::Empty);
    }
    Some(Window::Given(FlowWindow(value as u32)))
}
