// The radio's answers. What an accepted radio control message makes of a state is told by specs; code hears it in lent words.
#![tactic(auto)]

ghost use Rattle.std.specs.Prelude.{◌≡◌};
ghost use Rattle.ips_radio.specs.Heard.{due_of};

use meaning::message::ContextBytes;
use quantity::refusal::Refusal;

// `Due`: accepted, and a mobility message is due.
#[derive(Clone, Copy)]
pub enum RadioAnswer {
    Accepted,
    Due,
}

// Whether a mobility message is due: a Context came, and the control message just before had none, or another in length or bytes.
pub fn is_due(kept: Option<(ContextBytes, usize)>, given: Option<(ContextBytes, usize)>) -> bool
    ensures { result ≡ due_of kept given }
{
    let Some((bytes, length)) = given else {
        return false;
    };
    let Some((kept_bytes, kept_length)) = kept else {
        return true;
    };
    bytes.0 != kept_bytes.0 || length != kept_length
}
