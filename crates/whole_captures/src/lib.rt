// A whole capture in memory: its counts, and its verdicts. `report` and `judge` come to the same, piece by piece. Exports to measure by, from Rust or C (bench/).
#![tactic(auto)]

ghost use Rattle.std.specs.Prelude.{◌≡◌, length, replicate};
ghost use Rattle.records.specs.Files.{reports_of};
ghost use Rattle.records.specs.Endings.{refusal_of};
ghost use Rattle.census.specs.Counts.{outcomes_of, count_all};
ghost use Rattle.conduct.specs.Words.{judged_all};

use ethernet::Ports;
use quantity::count::DatalinkId;
use records::Came;

// Counts record after record. Gives the number by which the capture is refused, or 0.
#[tactic(auto, using(crate::proofs::Walks::counting_end, crate::proofs::Walks::counting_refused, crate::proofs::Walks::counting_inside, crate::proofs::Walks::counting_less))]
fn count(capture: &[u8], counts: &mut [u64], ports: Ports, id: DatalinkId) -> u8
    ensures refusal { result ≡ refusal_of capture.now }
    ensures counts { counts.new ≡ count_all (outcomes_of ports id (reports_of capture.now)) counts.old }
{
    let mut input = records::held(capture.len());
    // Not a `for`: the contract holds of a capture of any length, and a `for` would bound the turns.
    loop {
        match records::record_in(capture, input) {
            Came::End => return 0,
            Came::Record {
                from,
                to,
                original,
                rest,
            } => {
                census::count(counts, &capture[from..to], original, ports, id);
                input = rest;
            }
            Came::Refused(number) => return number,
        }
    }
}

// Judges record after record, by their numbers from 1.
#[tactic(auto, using(crate::proofs::Walks::judging_end, crate::proofs::Walks::judging_inside, crate::proofs::Walks::judging_less))]
fn judge(capture: &[u8], words: &mut [u64], ports: Ports, id: DatalinkId)
    ensures { words.new ≡ judged_all ports id 1 (reports_of capture.now) words.old }
{
    let mut input = records::held(capture.len());
    let mut number: u64 = 0;
    // Not a `for`, as above.
    loop {
        match records::record_in(capture, input) {
            Came::End => return,
            Came::Record {
                from,
                to,
                original,
                rest,
            } => {
                number += 1;
                conduct::judge(words, number, &capture[from..to], original, ports, id);
                input = rest;
            }
            Came::Refused(_) => {
                conduct::undecide(words);
                return;
            }
        }
    }
}

// The capture's counts, added to those that are lent, and the number by which it is refused, or 0.
#[unsafe(no_mangle)]
pub extern "C" fn nespovarda_census(
    capture: &[u8],
    counts: &mut [u64],
    radio: usize,
    ips: usize,
    id: u8,
) -> u8
    ensures refusal { result ≡ refusal_of capture.now }
    ensures counts { counts.new ≡ count_all (outcomes_of (record { radio = radio; ips = ips }) (record { 0 = id }) (reports_of capture.now)) counts.old }
{
    count(capture, counts, Ports { radio, ips }, DatalinkId(id))
}

// The words in which the capture's verdicts stand, whatever stood in them.
#[unsafe(no_mangle)]
pub extern "C" fn nespovarda_verdicts(
    capture: &[u8],
    words: &mut [u64],
    radio: usize,
    ips: usize,
    id: u8,
)
    ensures { words.new ≡ judged_all (record { radio = radio; ips = ips }) (record { 0 = id }) 1 (reports_of capture.now) (replicate (length words.old) 0) }
{
    conduct::start(words);
    judge(capture, words, Ports { radio, ips }, DatalinkId(id));
}
