// A message's meaning and a refusal as words of the session script.
#![tactic(auto)]

pub mod part;
pub mod table;
pub mod whole;
