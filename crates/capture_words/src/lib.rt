// The words of a program over captures: the ports of the two ends and the Datalink ID.
#![tactic(auto)]

ghost use Rattle.std.specs.Prelude.{◌≡◌};
ghost use Rattle.capture_words.specs.Settings.{setting_of, refused_of, numbers_say, words_say, Asked};

use ethernet::Ports;
use quantity::count::DatalinkId;
use std::env::{Env, FillError};

// "ports and Datalink ID are set in the program"
const RADIO_PORT: u64 = 8580;

const IPS_PORT: u64 = 8581;

const DATALINK: u64 = 7;

const HIGHEST_PORT: u64 = 65535;

const HIGHEST_DATALINK: u64 = 255;

// A longer word is no number that is asked for.
const WORD: usize = 8;

// What a program says on standard error of words that say nothing.
pub const USAGE: [u8; 102] =
    *b"three words or none: RADIO-PORT IPS-PORT DATALINK (ports 0 to 65535 and not equal, DATALINK 0 to 255)\n";

// What the words say: the ports and the Datalink ID, if they say so.
#[derive(Clone, Copy)]
pub struct Setting {
    pub good: bool,
    pub ports: Ports,
    pub id: DatalinkId,
}

fn made(good: bool, radio: usize, ips: usize, datalink: u8) -> Setting
    ensures { result ≡ setting_of good radio ips datalink }
{
    let ports = Ports { radio, ips };
    let id = DatalinkId(datalink);
    Setting { good, ports, id }
}

fn refused() -> Setting
    ensures { result ≡ refused_of }
{
    made(false, 0, 0, 0)
}

// What three numbers say.
pub fn numbers_say(radio: u64, ips: u64, datalink: u64) -> Setting
    ensures { result ≡ numbers_say radio ips datalink }
{
    if radio > HIGHEST_PORT {
        return refused();
    }
    if ips > HIGHEST_PORT {
        return refused();
    }
    if datalink > HIGHEST_DATALINK {
        return refused();
    }
    if radio == ips {
        return refused();
    }
    made(true, radio as usize, ips as usize, datalink as u8)
}

// What three words say, each a number or none.
pub fn words_say(radio: Option<u64>, ips: Option<u64>, datalink: Option<u64>) -> Setting
    ensures { result ≡ words_say radio ips datalink }
{
    let Some(to_radio) = radio else {
        return refused();
    };
    let Some(to_ips) = ips else {
        return refused();
    };
    let Some(named) = datalink else {
        return refused();
    };
    numbers_say(to_radio, to_ips, named)
}

// Whether the command line has a word; the program's own name is word 0.
fn has_word(env: &impl Env, i: usize) -> bool {
    let mut buffer = [0u8; WORD];
    !matches!(env.arg(i, &mut buffer), Err(FillError::NotPresent))
}

// The number that a word of the command line stands for.
fn word(env: &impl Env, i: usize) -> Option<u64> {
    let mut buffer = [0u8; WORD];
    match env.arg(i, &mut buffer) {
        Ok(n) => text::parse(&buffer[..n], u64::MAX),
        Err(_) => None,
    }
}

// What the words of the command line say: three, or none; the program's own name stands before them.
pub fn asked(env: &impl Env) -> Setting
    ensures { Asked result }
{
    if !has_word(env, 1) {
        return numbers_say(RADIO_PORT, IPS_PORT, DATALINK);
    }
    if !has_word(env, 3) {
        return refused();
    }
    if has_word(env, 4) {
        return refused();
    }
    words_say(word(env, 1), word(env, 2), word(env, 3))
}
