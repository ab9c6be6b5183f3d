//! Numbers.
ghost use Rattle.std.specs.Prelude.{◌≡◌, ◌≤◌, ◌-◌, ◌+◌, drop, length};
ghost use Rattle.std.specs.List.{position_or_len, prefix_len, suffix_len, list_all};
ghost use Rattle.std.specs.Char.{is_ascii_digit};
ghost use Rattle.xbrl_values.specs.Number as number;

/// Whether a text writes a number, as the value of a fact with a unit does (OIM 1.0, unit core dimension; the forms are
/// those of `decimal` and `double` in XML Schema 1.1 part 2): `INF`, `-INF`, `NaN` or a decimal, which may have an
/// exponent, with white space of JSON at its ends.
#[tactic(auto, unfolding(crate::specs::Number::is_number))]
pub fn is_number(text: &str) -> bool
    ensures { result ≡ number.is_number text.now }
{
    is_numeral(without_end(without_start(text.as_bytes())))
}

#[tactic(auto, unfolding(crate::specs::Number::is_numeral))]
fn is_numeral(bytes: &[u8]) -> bool
    ensures { result ≡ number.is_numeral bytes.now }
{
    bytes == b"INF".as_slice()
        || bytes == b"-INF".as_slice()
        || bytes == b"NaN".as_slice()
        || is_decimal(bytes)
}

#[tactic(auto, unfolding(crate::specs::Number::is_decimal))]
fn is_decimal(bytes: &[u8]) -> bool
    ensures { result ≡ number.is_decimal bytes.now }
{
    let unsigned = without_sign(bytes);
    let mark = place_of_exponent_mark(unsigned);
    is_mantissa(&unsigned[..mark]) && (mark == unsigned.len() || is_exponent(after(unsigned, mark)))
}

#[tactic(auto, unfolding(crate::specs::Number::is_mantissa))]
fn is_mantissa(bytes: &[u8]) -> bool
    ensures { result ≡ number.is_mantissa bytes.now }
{
    let point = place_of_point(bytes);
    let (whole, fraction) = (&bytes[..point], after(bytes, point));
    are_digits(whole) && are_digits(fraction) && !(whole.is_empty() && fraction.is_empty())
}

#[tactic(auto, unfolding(crate::specs::Number::is_exponent))]
fn is_exponent(bytes: &[u8]) -> bool
    ensures { result ≡ number.is_exponent bytes.now }
{
    let digits = without_sign(bytes);
    !digits.is_empty() && are_digits(digits)
}

fn without_sign(bytes: &[u8]) -> &[u8]
    ensures { result.now ≡ number.without_sign bytes.now }
{
    match bytes {
        [b'+' | b'-', rest @ ..] => rest,
        _ => bytes,
    }
}

fn without_start(bytes: &[u8]) -> &[u8]
    ensures { result.now ≡ number.without_start bytes.now }
{
    &bytes[start_of(bytes)..]
}

fn without_end(bytes: &[u8]) -> &[u8]
    ensures { result.now ≡ number.without_end bytes.now }
{
    &bytes[..end_of(bytes)]
}

// Where the white space at the start ends.
fn start_of(bytes: &[u8]) -> usize
    ensures value { result ≡ prefix_len number.is_space bytes.now }
    ensures within { result ≤ length bytes.now }
{
    for (index, byte) in bytes.iter().enumerate() {
        if !is_space(*byte) {
            return index;
        }
    }
    bytes.len()
}

// Where the white space at the end begins.
fn end_of(bytes: &[u8]) -> usize
    ensures value { result ≡ length bytes.now - suffix_len number.is_space bytes.now }
    ensures within { result ≤ length bytes.now }
{
    let mut end = bytes.len();
    while end > 0 && is_space(bytes[end - 1]) {
        end -= 1;
    }
    end
}

fn place_of_point(bytes: &[u8]) -> usize
    ensures value { result ≡ position_or_len number.is_point bytes.now }
    ensures within { result ≤ length bytes.now }
{
    for (index, byte) in bytes.iter().enumerate() {
        if *byte == b'.' {
            return index;
        }
    }
    bytes.len()
}

fn place_of_exponent_mark(bytes: &[u8]) -> usize
    ensures value { result ≡ position_or_len number.is_exponent_mark bytes.now }
    ensures within { result ≤ length bytes.now }
{
    for (index, byte) in bytes.iter().enumerate() {
        if *byte == b'E' || *byte == b'e' {
            return index;
        }
    }
    bytes.len()
}

// What stands after that place.
fn after(bytes: &[u8], place: usize) -> &[u8]
    ensures { result.now ≡ drop (place + 1) bytes.now }
{
    if place < bytes.len() {
        &bytes[place + 1..]
    } else {
        &[]
    }
}

fn are_digits(bytes: &[u8]) -> bool
    ensures { result ≡ list_all is_ascii_digit bytes.now }
{
    bytes.iter().all(u8::is_ascii_digit)
}

fn is_space(byte: u8) -> bool
    ensures { result ≡ number.is_space byte }
{
    matches!(byte, b' ' | b'\t' | b'\n' | b'\r')
}
