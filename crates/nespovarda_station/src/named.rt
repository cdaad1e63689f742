// A Link Instance and a Context from two numbers: a value and the length that it is written at; 0 and 0 where there is none.
ghost use Rattle.std.specs.Prelude.{◌≡◌};
ghost use Rattle.nespovarda_station.specs.Named.{says_none_of, instance_said, context_said};

use meaning::message::ContextBytes;
use quantity::count::LinkInstanceId;

fn says_none(value: u64, length: u64) -> bool
    ensures { result ≡ says_none_of value length }
{
    value == 0 && length == 0
}

pub(crate) fn instance(value: u64, length: u64) -> Option<(LinkInstanceId, usize)>
    ensures { result ≡ instance_said value length }
{
    if says_none(value, length) {
        return None;
    }
    Some((LinkInstanceId(value), length as usize))
}

pub(crate) fn context(value: u64, length: u64) -> Option<(ContextBytes, usize)>
    ensures { result ≡ context_said value length }
{
    if says_none(value, length) {
        return None;
    }
    Some((ContextBytes(value), length as usize))
}
