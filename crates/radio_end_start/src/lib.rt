// A fresh start of the radio's end on words: the configuration is lent as words, and the state is written into words.
#![tactic(auto)]

ghost use Rattle.std.specs.Prelude.{◌≡◌};
ghost use Rattle.radio_end_start.specs.Start.{not_started, StartedIn};

use crate::layout::CONFIGURED_COUNT;
use quantity::refusal;
use quantity::refusal::Refusal;
use radio_end_words::layout::{HEAD, SLOT};

mod fresh;
mod judge;
pub mod layout;

fn refused(number: u8) -> Result<(), Refusal>
    ensures { result ≡ not_started number }
{
    Err(Refusal { number, place: 0 })
}

// 19, then 23, before anything is written; else the words of the fresh state. What stood in the words does not matter.
pub fn start(words: &mut [u64], configuration: &[u64]) -> Result<(), Refusal>
    ensures { StartedIn configuration.now words.old result words.new }
{
    if !judge::fits(configuration) {
        return refused(refusal::OUTSIDE_LIMITS);
    }
    let count = configuration[CONFIGURED_COUNT] as usize;
    if words.len() != HEAD + SLOT * count {
        return refused(refusal::OUTSIDE_LIMITS);
    }
    if !judge::allowances_fit(configuration, count) {
        return refused(refusal::LARGE_ALLOWANCE);
    }
    fresh::write(words, configuration, count);
    Ok(())
}
