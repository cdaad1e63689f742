// What C calls of `nespovarda::shown`: each call of it under the same clauses.
ghost use Rattle.std.specs.Prelude.{◌≡◌, ◌≤◌};
ghost use Rattle.quantity.specs.Limits.{MOST-WAITING};
ghost use Rattle.ips_words.specs.Words.{state_in};
ghost use Rattle.nespovarda.specs.Shown.{channel_numbers, kept_numbers, pacer_numbers, WaitingAt, ShowsChannel, ShowsWaiting, ShowsKept, ShowsPacer};

use answer_codes::Answer;
use nespovarda::shown::{CHANNEL_NUMBERS, KEPT_NUMBERS, PACER_NUMBERS, WAITING_NUMBERS};

#[unsafe(no_mangle)]
pub extern "C" fn nespovarda_show(
    words: &[u64],
    channel: u8,
    shown: &mut [u64; CHANNEL_NUMBERS],
) -> Answer
    ensures { ShowsChannel (state_in words.now) channel shown.old result shown.new }
{
    nespovarda::shown::nespovarda_show(words, channel, shown)
}

#[unsafe(no_mangle)]
pub extern "C" fn nespovarda_waiting(
    words: &[u64],
    channel: u8,
    position: u64,
    shown: &mut [u64; WAITING_NUMBERS],
) -> Answer
    ensures { ShowsWaiting (state_in words.now) channel position shown.old result shown.new }
{
    nespovarda::shown::nespovarda_waiting(words, channel, position, shown)
}

#[unsafe(no_mangle)]
pub extern "C" fn nespovarda_kept(words: &[u64], shown: &mut [u64; KEPT_NUMBERS]) -> Answer
    ensures { ShowsKept (state_in words.now) shown.old result shown.new }
{
    nespovarda::shown::nespovarda_kept(words, shown)
}

#[unsafe(no_mangle)]
pub extern "C" fn nespovarda_pacer(words: &[u64], shown: &mut [u64; PACER_NUMBERS]) -> Answer
    ensures { ShowsPacer (state_in words.now) shown.old result shown.new }
{
    nespovarda::shown::nespovarda_pacer(words, shown)
}
