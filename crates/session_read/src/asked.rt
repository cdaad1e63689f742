// What a line asks for.
ghost use Rattle.std.specs.Prelude.{◌≡◌, ◌<◌, get_or};
ghost use Rattle.session_read.specs.Lines.{end_of, asked_by, numbers_in, Bounded, OffersFit};
ghost use Rattle.session_read.specs.Offers.{counts_from};
ghost use Rattle.session_read.specs.declared.asked.Asked.{Asked};
ghost use Rattle.session_read.specs.declared.asked.Command.{Command};

use crate::offers::{ListCounts, SAID_TIME, counts};
use crate::table::{
    ECHO, KEPT, NEXT, OFFER, OFFERS, PACE, PACER, PLACES, QUERY, RADIO, READ, SHOW, START, STORE,
    WITHDRAW,
};
use meaning::message::End;

// The words of each line in their order; the bytes that it says, the words, and what `start` says, stand beside.
#[derive(Clone, Copy)]
pub enum Asked {
    Bad,
    Read(End, u8),
    Echo(End, u8, End, usize),
    Start,
    State(Command),
}

// A line that asks for a state that was started.
#[derive(Clone, Copy)]
pub enum Command {
    Offer(u8, u64, u64),
    Offers(u64, ListCounts),
    Next(u8, u64, usize),
    Withdraw(u8),
    Radio(u64),
    Pace(u64),
    Query(usize),
    Show(u8),
    Store(u8),
    Kept,
    Pacer,
}

fn end_of(n: u64) -> End
    ensures { result ≡ end_of n }
{
    if n == 0 {
        return End::Ips;
    }
    End::Radio
}

fn read(n: &[u64; PLACES]) -> Asked
    requires { get_or n.now 1 0 < 256 }
    ensures { result ≡ Asked.Read (end_of (get_or n.now 0 0)) (get_or n.now 1 0) }
{
    Asked::Read(end_of(n[0]), n[1] as u8)
}

fn echo(n: &[u64; PLACES]) -> Asked
    requires { get_or n.now 1 0 < 256 }
    ensures { result ≡ Asked.Echo (end_of (get_or n.now 0 0)) (get_or n.now 1 0) (end_of (get_or n.now 3 0)) (get_or n.now 4 0) }
{
    Asked::Echo(end_of(n[0]), n[1] as u8, end_of(n[3]), n[4] as usize)
}

fn offer(n: &[u64; PLACES]) -> Asked
    requires { get_or n.now 0 0 < 256 }
    ensures { result ≡ Asked.State (Command.Offer (get_or n.now 0 0) (get_or n.now 1 0) (get_or n.now 2 0)) }
{
    Asked::State(Command::Offer(n[0] as u8, n[1], n[2]))
}

fn offers(n: &[u64; PLACES]) -> Asked
    requires { OffersFit (numbers_in n.now) }
    ensures { result ≡ Asked.State (Command.Offers (get_or n.now 0 0) (counts_from (numbers_in n.now))) }
{
    Asked::State(Command::Offers(n[SAID_TIME], counts(n)))
}

fn next(n: &[u64; PLACES]) -> Asked
    requires { get_or n.now 0 0 < 256 }
    ensures { result ≡ Asked.State (Command.Next (get_or n.now 0 0) (get_or n.now 1 0) (get_or n.now 2 0)) }
{
    Asked::State(Command::Next(n[0] as u8, n[1], n[2] as usize))
}

// The one number of a line, where it is a channel.
fn channel(n: &[u64; PLACES]) -> u8
    requires { get_or n.now 0 0 < 256 }
    ensures { result ≡ get_or n.now 0 0 }
{
    n[0] as u8
}

// And where it is a room.
fn room(n: &[u64; PLACES]) -> usize
    ensures { result ≡ get_or n.now 0 0 }
{
    n[0] as usize
}

// What a command asks for with its numbers.
pub(crate) fn asks(key: u64, n: &[u64; PLACES]) -> Asked
    requires { Bounded key n.now }
    ensures { result ≡ asked_by key (numbers_in n.now) }
{
    match key {
        READ => read(n),
        ECHO => echo(n),
        START => Asked::Start,
        OFFER => offer(n),
        OFFERS => offers(n),
        NEXT => next(n),
        WITHDRAW => Asked::State(Command::Withdraw(channel(n))),
        RADIO => Asked::State(Command::Radio(n[0])),
        PACE => Asked::State(Command::Pace(n[0])),
        QUERY => Asked::State(Command::Query(room(n))),
        SHOW => Asked::State(Command::Show(channel(n))),
        STORE => Asked::State(Command::Store(channel(n))),
        KEPT => Asked::State(Command::Kept),
        PACER => Asked::State(Command::Pacer),
        _ => Asked::Bad,
    }
}
