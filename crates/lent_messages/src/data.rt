// A data message in words, with where its packet stands.
ghost use Rattle.std.specs.Prelude.{◌≡◌, length};
ghost use Rattle.lent_messages.specs.Layout.{DATA-WORDS};
ghost use Rattle.lent_messages.specs.Words.{data_words, data_of, data_spelled, DataSays, parts_spelled};

use crate::layout::{
    BYTE, CHANNEL_TAG, CHANNEL_VALUE, COUNTED_CHANNEL, COUNTED_SEQUENCE, COUNTED_TAG, DATA_WORDS,
    DATALINK_TAG, DATALINK_VALUE, EXPIRATION_TAG, EXPIRATION_VALUE, GIVEN, HALF, PACKET_LENGTH,
    PACKET_START,
};
use crate::stated;
use meaning::message::Data;

// The words of a message, over all that stood there.
pub fn save(words: &mut [u64], message: Data, start: usize, size: usize)
    requires { length words.old ≡ DATA-WORDS }
    ensures { words.new ≡ data_words message start size }
{
    let datalink = message.datalink;
    let sequence = message.sequence;
    let channel = message.channel;
    let expiration = message.expiration;
    let link = stated::one(datalink);
    let counted = stated::counted(sequence);
    let named = stated::one(channel);
    let lasting = stated::one(expiration);
    words[DATALINK_TAG] = link.tag;
    words[DATALINK_VALUE] = link.first;
    words[COUNTED_TAG] = counted.tag;
    words[COUNTED_CHANNEL] = counted.first;
    words[COUNTED_SEQUENCE] = counted.second;
    words[CHANNEL_TAG] = named.tag;
    words[CHANNEL_VALUE] = named.first;
    words[EXPIRATION_TAG] = lasting.tag;
    words[EXPIRATION_VALUE] = lasting.first;
    words[PACKET_START] = start as u64;
    words[PACKET_LENGTH] = size as u64;
}

// Tags that there are, and numbers no wider than what they are numbers of.
fn parts_spelled(words: &[u64]) -> bool
    requires { length words.now ≡ DATA-WORDS }
    ensures { result ≡ parts_spelled words.now }
{
    stated::fits(words[DATALINK_TAG], GIVEN, words[DATALINK_VALUE], BYTE)
        && (stated::fits(words[COUNTED_TAG], GIVEN, words[COUNTED_CHANNEL], BYTE)
            && (stated::fits(words[COUNTED_TAG], GIVEN, words[COUNTED_SEQUENCE], HALF)
                && (stated::fits(words[CHANNEL_TAG], GIVEN, words[CHANNEL_VALUE], BYTE)
                    && stated::fits(words[EXPIRATION_TAG], GIVEN, words[EXPIRATION_VALUE], HALF))))
}

pub fn spelled(words: &[u64]) -> bool
    ensures { result ≡ data_spelled words.now }
{
    words.len() == DATA_WORDS && parts_spelled(words)
}

// The message that the words state.
pub fn load(words: &[u64]) -> Data
    requires { DataSays words.now }
    ensures { result ≡ data_of words.now }
{
    Data {
        datalink: stated::one_of(words[DATALINK_TAG], words[DATALINK_VALUE]),
        sequence: stated::counted_of(
            words[COUNTED_TAG],
            words[COUNTED_CHANNEL],
            words[COUNTED_SEQUENCE],
        ),
        channel: stated::one_of(words[CHANNEL_TAG], words[CHANNEL_VALUE]),
        expiration: stated::one_of(words[EXPIRATION_TAG], words[EXPIRATION_VALUE]),
    }
}
