//! Lines by which somebody else sends bytes.

ghost use Rattle.std.specs.Prelude.{◌≡◌, ◌<◌, ◌∷◌, length, option_map, false, IfOk, IfSome, MatchOption};
ghost use Rattle.event_script.specs.Events.{view_event, HasTarget};
ghost use Rattle.event_script.specs.Lines.{escaped_byte, unescaped, stranger_of};

use crate::event::Event;
use std::alloc::{AllocError, Global};

/// `TEXT`: the bytes, in which `\r`, `\n` and `\\` stand for CR, LF and a backslash.
pub(crate) fn read_stranger(alloc: Global, text: &str) -> Result<Option<Event>, AllocError>
    ensures read { IfOk result (λ event. option_map view_event event ≡ stranger_of text.now) }
    ensures targets { IfOk result (λ event. IfSome event (λ e. HasTarget (view_event e))) }
{
    let bytes = unescape(alloc, text.as_bytes())?;
    Ok(bytes.map(|bytes| Event::Stranger { bytes }))
}

/// The bytes that a text stands for; `None` if a backslash stands before any other character.
fn unescape(alloc: Global, text: &[u8]) -> Result<Option<Vec<u8>>, AllocError>
    ensures { IfOk result (λ bytes. option_map (λ b. b.items) bytes ≡ unescaped false text.now) }
{
    let mut bytes = Vec::new(alloc);
    let mut rest = text;
    while let Some((byte, after)) = split_character(rest) {
        bytes.push(byte)?;
        rest = after;
    }
    if rest.is_empty() {
        Ok(Some(bytes))
    } else {
        Ok(None)
    }
}

/// The byte that the first character stands for, and what follows it.
fn split_character(text: &[u8]) -> Option<(u8, &[u8])>
    ensures parts { MatchOption result (0 < length text.now → unescaped false text.now ≡ None)
        (λ split. unescaped false text.now ≡ option_map (λ bytes. split.0 ∷ bytes) (unescaped false split.1.now)) }
    ensures shorter { IfSome result (λ split. length split.1.now < length text.now) }
{
    let (first, rest) = text.split_first()?;
    if *first != b'\\' {
        return Some((*first, rest));
    }
    let (second, rest) = rest.split_first()?;
    let byte = escaped_byte(*second)?;
    Some((byte, rest))
}

/// The byte that a backslash and this character stand for.
fn escaped_byte(character: u8) -> Option<u8>
    ensures { result ≡ escaped_byte character }
{
    match character {
        b'r' => Some(b'\r'),
        b'n' => Some(b'\n'),
        b'\\' => Some(b'\\'),
        _ => None,
    }
}
