// What reading a message answers.
use quantity::refusal::Refusal;

// A reader of one plane says so of a message of the other.
#[derive(Clone, Copy)]
pub enum Verdict {
    Accepted,
    OtherPlane,
    Refused(Refusal),
}
