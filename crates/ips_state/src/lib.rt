// The endpoint's state is told by specs and laws; code holds it in lent words.
#![tactic(auto)]

use quantity::refusal::Refusal;
