// A radio message handed in.
ghost use Rattle.std.specs.Prelude.{◌≡◌, true};
ghost use Rattle.ips_state.specs.Limits.{state_fits};
ghost use Rattle.ips_run.specs.Run as run;
ghost use Rattle.ips_calls.specs.Replies.{of_radio};
ghost use Rattle.ips_words.specs.Words.{state_in};
ghost use Rattle.endpoint.specs.Calls.{PerformedInWithAny};
ghost use Rattle.endpoint.specs.Radio.{MessageHeard, DataPassed, ControlRead, DataRead, DatagramRead};

use ips_radio::RadioAnswer;
use ips_words::head;
use ips_words_survey::survey;
use meaning::message::{Control, End, Plane};
use quantity::refusal;
use quantity::refusal::Refusal;
use reader::answer::{ControlReading, DataReading, Verdict};
use reader::header;

fn accepted(words: &mut [u64], time: u64, message: Control) -> Result<RadioAnswer, Refusal>
    requires { state_fits (state_in words.old) ≡ true }
    ensures { MessageHeard time message words.old result words.new }
{
    let kept = head::context(words);
    let given = message.context;
    let paced = head::pacer(words);
    ips_words_radio::hear(words, message);
    head::move_pacer(words, pacer::hear(paced, time));
    if ips_radio::is_due(kept, given) {
        return Ok(RadioAnswer::Due);
    }
    Ok(RadioAnswer::Accepted)
}

fn control(words: &mut [u64], time: u64, reading: ControlReading) -> Result<RadioAnswer, Refusal>
    requires { state_fits (state_in words.old) ≡ true }
    ensures { ControlRead time reading words.old result words.new }
{
    let verdict = reading.verdict;
    match verdict {
        Verdict::Accepted => accepted(words, time, reading.message),
        // The plane is known before a reader is asked.
        Verdict::OtherPlane => Ok(RadioAnswer::Accepted),
        Verdict::Refused(refusal) => Err(refusal),
    }
}

// An accepted radio data message moves the pacer's clock, and changes nothing else.
fn passed(words: &mut [u64], time: u64) -> Result<RadioAnswer, Refusal>
    requires { state_fits (state_in words.old) ≡ true }
    ensures { DataPassed time words.old result words.new }
{
    let paced = head::pacer(words);
    head::move_pacer(words, pacer::pass(paced, time));
    Ok(RadioAnswer::Accepted)
}

fn data(words: &mut [u64], time: u64, reading: DataReading) -> Result<RadioAnswer, Refusal>
    requires { state_fits (state_in words.old) ≡ true }
    ensures { DataRead time reading words.old result words.new }
{
    let verdict = reading.verdict;
    match verdict {
        Verdict::Accepted => passed(words, time),
        Verdict::OtherPlane => Ok(RadioAnswer::Accepted),
        Verdict::Refused(refusal) => Err(refusal),
    }
}

// As for reading.
fn read(words: &mut [u64], time: u64, datagram: &[u8]) -> Result<RadioAnswer, Refusal>
    requires { state_fits (state_in words.old) ≡ true }
    ensures { DatagramRead time datagram.now words.old result words.new }
{
    let datalink = head::datalink(words);
    match header::plane(datagram) {
        Ok(Plane::Control) => control(
            words,
            time,
            reader::control::read(datagram, End::Radio, datalink),
        ),
        Ok(Plane::Data) => data(
            words,
            time,
            reader::data::read(datagram, End::Radio, datalink),
        ),
        Err(refusal) => Err(refusal),
    }
}

// 19, 21, then as for reading.
pub fn hand_in(words: &mut [u64], time: u64, datagram: &[u8]) -> Result<RadioAnswer, Refusal>
    ensures { PerformedInWithAny (run.radio time datagram.now) words.old (of_radio result) words.new }
{
    survey::judge(words)?;
    if pacer::is_earlier(head::pacer(words), time) {
        return Err(Refusal {
            number: refusal::EARLIER_PACE,
            place: 0,
        });
    }
    read(words, time, datagram)
}
