//! How a character is written.

ghost use Rattle.std.specs.Prelude.{◌≡◌, ◌<◌};
ghost use Rattle.std.specs.Fmt.{WritesOnOk};
ghost use Rattle.terminal_text.specs.OneLine.{is_hidden, hexadecimal, escape, written};

use std::fmt;

/// Whether a character is a control, ends a line, or changes the direction of what follows it.
fn is_hidden(c: char) -> bool
    ensures { result ≡ is_hidden c }
{
    matches!(c, '\0'..='\u{1f}' | '\u{7f}'..='\u{9f}' | '\u{61c}' | '\u{200e}'..='\u{200f}')
        || matches!(c, '\u{2028}'..='\u{202e}' | '\u{2066}'..='\u{2069}')
}

/// The last digit of a number in base 16.
fn hexadecimal(number: u32) -> u8
    ensures { result ≡ hexadecimal number }
{
    let digit = (number % 16) as u8;
    if digit < 10 {
        b'0' + digit
    } else {
        b'a' + (digit - 10)
    }
}

/// Writes a backslash, `u` and four digits.
#[tactic(auto, unfolding(crate::specs::OneLine::escape))]
fn write_escape<W: fmt::Write>(c: char, f: &mut fmt::Formatter<W>) -> fmt::Result
    ensures { WritesOnOk W.write_str_gives f.old result (escape c) f.new }
{
    let number = u32::from(c);
    let escape = [
        b'\\',
        b'u',
        hexadecimal(number / 4096),
        hexadecimal(number / 256),
        hexadecimal(number / 16),
        hexadecimal(number),
    ];
    f.write_str(str::from_utf8(&escape).map_err(|_| fmt::Error)?)
}

/// Writes a character as it is, or its escape if it is hidden.
pub(crate) fn write_character<W: fmt::Write>(c: char, f: &mut fmt::Formatter<W>) -> fmt::Result
    ensures { WritesOnOk W.write_str_gives f.old result (written c) f.new }
{
    if is_hidden(c) {
        write_escape(c, f)
    } else {
        f.write_char(c)
    }
}
