// Words of a line, with one space between two. A rest of a line keeps the space that it starts with, so that a missing
// word and a doubled space both show as an empty word.
ghost use Rattle.std.specs.Prelude.{◌≡◌, drop};
ghost use Rattle.text.specs.Words.{head_of, tail_of, word_of, beyond_of};

// The first word of a line.
pub fn head(line: &[u8]) -> &[u8]
    ensures { result.now ≡ head_of line.now }
{
    let end = octets::find(line, 0, line.len(), b' ');
    &line[0..end]
}

// The line behind its first word.
pub fn tail(line: &[u8]) -> &[u8]
    ensures { result.now ≡ tail_of line.now }
{
    let end = octets::find(line, 0, line.len(), b' ');
    &line[end..]
}

// A rest of a line without the space that it starts with.
fn stripped(rest: &[u8]) -> &[u8]
    ensures { result.now ≡ drop 1 rest.now }
{
    if rest.len() == 0 {
        return &rest[0..0];
    }
    &rest[1..]
}

// The next word of a rest.
pub fn word(rest: &[u8]) -> &[u8]
    ensures { result.now ≡ word_of rest.now }
{
    head(stripped(rest))
}

// The rest behind that word.
pub fn beyond(rest: &[u8]) -> &[u8]
    ensures { result.now ≡ beyond_of rest.now }
{
    tail(stripped(rest))
}
