// A fresh start on words: the configuration is lent as words, and the state is written into words.
#![tactic(auto)]

ghost use Rattle.std.specs.Prelude.{◌≡◌};
ghost use Rattle.ips_words_start.specs.Start.{not_started, StartedIn};

use crate::layout::{CONFIGURED_COUNT, CONFIGURED_HELLO, CONFIGURED_LIMIT};
use ips_words::layout::{HEAD, SLOT};
use ips_words::waiting;
use quantity::refusal;
use quantity::refusal::Refusal;

mod fresh;
mod judge;
pub mod layout;

fn refused(number: u8) -> Result<(), Refusal>
    ensures { result ≡ not_started number }
{
    Err(Refusal { number, place: 0 })
}

// 19, then 22, before anything is written; else the words of the fresh state, and zeros in each store. What stood in words and memory does not matter.
pub fn begin(words: &mut [u64], memory: &mut [u8], configuration: &[u64]) -> Result<(), Refusal>
    ensures { StartedIn configuration.now words.old memory.old result words.new memory.new }
{
    let Some(total) = judge::judge(configuration) else {
        return refused(refusal::OUTSIDE_LIMITS);
    };
    if total.0 != memory.len() {
        return refused(refusal::OUTSIDE_LIMITS);
    }
    let count = waiting::narrow(configuration[CONFIGURED_COUNT]);
    if words.len() != HEAD + SLOT * count {
        return refused(refusal::OUTSIDE_LIMITS);
    }
    if !pacer::fits(
        configuration[CONFIGURED_HELLO],
        configuration[CONFIGURED_LIMIT],
    ) {
        return refused(refusal::NO_WAIT);
    }
    fresh::write(words, configuration, count);
    memory.fill(0);
    Ok(())
}
