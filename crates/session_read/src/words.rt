// Numbers of a line, laid as words into the lent ones.
ghost use Rattle.std.specs.Prelude.{◌≡◌, ◌+◌, ◌≤◌, length};
ghost use Rattle.std.proofs.Math.Seq.{paste};
ghost use Rattle.session_read.specs.Lines.{PLACES, CONFIGURATION-WORDS, numbers_in};
ghost use Rattle.session_read.specs.Words.{said_from};

use crate::configuration::CONFIGURATION_WORDS;
use crate::table::PLACES;

// So many numbers from a place on.
pub(crate) fn lay(
    words: &mut [u64; CONFIGURATION_WORDS],
    to: usize,
    n: &[u64; PLACES],
    from: usize,
    count: usize,
)
    requires count_bound { to + count ≤ CONFIGURATION-WORDS }
    requires count_bound_2 { from + count ≤ PLACES }
    requires words_len { length words.old ≡ CONFIGURATION-WORDS }
    ensures { words.new ≡ paste words.old to (said_from (numbers_in n.now) from count) count }
{
    words[to..to + count].copy_from_slice(&n[from..from + count]);
}
