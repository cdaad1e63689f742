// What is judged of a channel.

// What is found of a channel: its data messages obey; the record of the first that doesn't; or the capture leaves it open.
#[derive(Clone, Copy)]
pub enum Finding {
    Passes,
    Breach(u64),
    Undecided,
}

// What a record was to the judge: of a kind that is skipped; a data message of the IPS end, judged; or another datagram of one of the ends.
#[derive(Clone, Copy)]
pub enum Seen {
    Skipped,
    Judged,
    Other,
}

// How many data messages were judged, and how many records skipped.
#[derive(Clone, Copy)]
pub struct Tally {
    pub judged: u64,
    pub skipped: u64,
}
