// What a line asks for.
ghost use Rattle.std.specs.Prelude.{◌≡◌, ◌<◌, get_or};
ghost use Rattle.station_read.specs.Lines.{asked_by, numbers_in, Bounded};
ghost use Rattle.station_read.specs.declared.asked.Asked.{Asked};
ghost use Rattle.station_read.specs.declared.asked.Command.{Command};

use crate::table::{CONTEXT, HEAR, LINK, PLACES, QUEUED, SHOW, START, STATUS, TELL};

// A start of so many channels, whose words are the numbers of the line; a command for a state that was started, with the room of its output.
#[derive(Clone, Copy)]
pub enum Asked {
    Bad,
    Start(usize),
    State(Command, usize),
}

// The words of each line in their order; the bytes that it says stand beside.
#[derive(Clone, Copy)]
pub enum Command {
    Hear,
    Status(u8, u8),
    Context,
    Queued(u8, u64),
    Link(u8, u64),
    Tell,
    Show(u8),
}

fn status(n: &[u64; PLACES]) -> Asked
    requires n_bound { get_or n.now 0 0 < 256 }
    requires n_bound_2 { get_or n.now 1 0 < 256 }
    ensures { result ≡ Asked.State (Command.Status (get_or n.now 0 0) (get_or n.now 1 0)) (get_or n.now 2 0) }
{
    Asked::State(Command::Status(n[0] as u8, n[1] as u8), n[2] as usize)
}

fn queued(n: &[u64; PLACES]) -> Asked
    requires { get_or n.now 0 0 < 256 }
    ensures { result ≡ Asked.State (Command.Queued (get_or n.now 0 0) (get_or n.now 1 0)) (get_or n.now 2 0) }
{
    Asked::State(Command::Queued(n[0] as u8, n[1]), n[2] as usize)
}

fn link(n: &[u64; PLACES]) -> Asked
    requires { get_or n.now 0 0 < 256 }
    ensures { result ≡ Asked.State (Command.Link (get_or n.now 0 0) (get_or n.now 1 0)) 0 }
{
    Asked::State(Command::Link(n[0] as u8, n[1]), 0)
}

fn show(n: &[u64; PLACES]) -> Asked
    requires { get_or n.now 0 0 < 256 }
    ensures { result ≡ Asked.State (Command.Show (get_or n.now 0 0)) 0 }
{
    Asked::State(Command::Show(n[0] as u8), 0)
}

// What a command asks for with its numbers.
pub(crate) fn asks(key: u64, n: &[u64; PLACES]) -> Asked
    requires { Bounded key n.now }
    ensures { result ≡ asked_by key (numbers_in n.now) }
{
    match key {
        START => Asked::Start(n[1] as usize),
        HEAR => Asked::State(Command::Hear, n[0] as usize),
        STATUS => status(n),
        CONTEXT => Asked::State(Command::Context, n[1] as usize),
        QUEUED => queued(n),
        LINK => link(n),
        TELL => Asked::State(Command::Tell, n[0] as usize),
        SHOW => show(n),
        _ => Asked::Bad,
    }
}
