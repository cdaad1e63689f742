// Texts laid into an output at a cursor. Each function gives the cursor behind its text; a text that has no room is
// left out whole.
ghost use Rattle.std.specs.Prelude.{◌≡◌, ◌∷◌, nat_abs};
ghost use Rattle.text.specs.Laying.{Lays, decimal_text, signed_text};

// Lays a text.
pub fn put(out: &mut [u8], at: usize, text: &[u8]) -> usize
    ensures { Lays out.old at text.now result out.new }
{
    if at > out.len() {
        return at;
    }
    if text.len() > out.len() - at {
        return at;
    }
    at + octets::copy(text, &mut out[at..])
}

// Lays a number in decimal.
pub fn put_number(out: &mut [u8], at: usize, value: u64) -> usize
    ensures { Lays out.old at (decimal_text value) result out.new }
{
    let mut text = [0u8; 20];
    let n = io::decimal(value, &mut text);
    put(out, at, &text[..n])
}

// Lays a number in decimal with `-` before it.
fn put_negative(out: &mut [u8], at: usize, value: u64) -> usize
    ensures { Lays out.old at (45 ∷ decimal_text value) result out.new }
{
    let mut text = [b'-'; 21];
    let n = put_number(&mut text, 1, value);
    put(out, at, &text[..n])
}

// Lays a whole number in decimal.
pub fn put_signed(out: &mut [u8], at: usize, value: i64) -> usize
    ensures { Lays out.old at (signed_text value) result out.new }
{
    let size = value.unsigned_abs();
    if value >= 0 {
        return put_number(out, at, size);
    }
    put_negative(out, at, size)
}
