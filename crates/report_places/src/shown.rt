//! The text of a value, to show it.
ghost use Rattle.std.specs.Prelude.{◌≡◌, ◌≤◌, drop, take, length, option_map};
ghost use Rattle.std.specs.List.{prefix_len};
ghost use Rattle.json.specs.Lex.{in_string};
ghost use Rattle.json.specs.Align.{span};
ghost use Rattle.report_places.specs.Shown.{goes_on as goes_on_lem, scalar as scalar_lem, first_characters};
ghost use Rattle.report_places.specs.Shown.{value_text as value_text_lem};

use crate::mode::ends_word;
use crate::position::begins_character;

/// How many characters of a value are shown at most.
const SHOWN: usize = 60;

/// The bytes of the string, number or literal that begins at an offset, up to 60 characters of them; `None` if none
/// begins there, as at the bracket of an array.
pub fn value_text(text: &[u8], offset: usize) -> Option<&[u8]>
    ensures { option_map (λ shown. shown.now) result ≡ value_text_lem (drop offset text.now) }
{
    let value = whole_value(text, offset)?;
    Some(&value[..characters_len(value)])
}

/// All bytes of the string, number or literal that begins at an offset; `None` if none begins there.
pub fn whole_value(text: &[u8], offset: usize) -> Option<&[u8]>
    ensures { option_map (λ value. value.now) result ≡ scalar_lem (drop offset text.now) }
{
    scalar(&text[offset.min(text.len())..])
}

fn scalar(bytes: &[u8]) -> Option<&[u8]>
    ensures { option_map (λ value. value.now) result ≡ scalar_lem bytes.now }
{
    match bytes {
        [] => None,
        [b'"', rest @ ..] => Some(&bytes[..1 + string_len(rest)]),
        [first, ..] => if goes_on(*first) {
            Some(&bytes[..word_len(bytes)])
        } else {
            None
        },
    }
}

// How long the rest of a string is, with its quote.
fn string_len(bytes: &[u8]) -> usize
    ensures value { result ≡ span in_string bytes.now }
    ensures within { result ≤ length bytes.now }
{
    let mut is_escaped = false;
    for (index, byte) in bytes.iter().enumerate() {
        if is_escaped {
            is_escaped = false;
        } else if *byte == b'"' {
            return index + 1;
        } else {
            is_escaped = *byte == b'\\';
        }
    }
    bytes.len()
}

fn word_len(bytes: &[u8]) -> usize
    ensures value { result ≡ prefix_len goes_on_lem bytes.now }
    ensures within { result ≤ length bytes.now }
{
    for (index, byte) in bytes.iter().enumerate() {
        if !goes_on(*byte) {
            return index;
        }
    }
    bytes.len()
}

fn goes_on(byte: u8) -> bool
    ensures { result ≡ goes_on_lem byte }
{
    !ends_word(byte)
}

// How many bytes the first characters have.
fn characters_len(bytes: &[u8]) -> usize
    ensures value { take result bytes.now ≡ first_characters SHOWN bytes.now }
    ensures within { result ≤ length bytes.now }
{
    let mut left = SHOWN;
    for (index, byte) in bytes.iter().enumerate() {
        if begins_character(*byte) {
            if left == 0 {
                return index;
            }
            left -= 1;
        }
    }
    bytes.len()
}
