// Channels in words: those of each stand one behind another behind a head, its ID first. A state and a configuration differ in how many words these are.
ghost use Rattle.std.specs.Prelude.{◌≡◌};
ghost use Rattle.radio_end_state.specs.Limits.{index_of, ids_fit};
ghost use Rattle.radio_end_words.specs.Rows.{numbers, Rows};

// The first channel with this ID; behind the last, if there is none. The count stands beside the words as in `place::index_of`, whose contract names it.
pub fn index_of<const HEAD: usize, const SLOT: usize>(words: &[u64], count: usize, id: u64) -> usize
    requires { Rows HEAD SLOT words.now count }
    ensures { result ≡ index_of id (numbers HEAD SLOT words.now count) }
{
    for index in 0..count {
        if words[HEAD + SLOT * index] == id {
            return index;
        }
    }
    count
}

// Whether each ID stands at its first place, and channel 0 is among them.
pub fn ids_fit<const HEAD: usize, const SLOT: usize>(words: &[u64], count: usize) -> bool
    requires { Rows HEAD SLOT words.now count }
    ensures { result ≡ ids_fit (numbers HEAD SLOT words.now count) }
{
    for index in 0..count {
        if index_of::<HEAD, SLOT>(words, count, words[HEAD + SLOT * index]) != index {
            return false;
        }
    }
    index_of::<HEAD, SLOT>(words, count, 0) < count
}
