//! JSON Pointers (RFC 6901).
ghost use Rattle.std.specs.Prelude.{◌≡◌, ◌↔◌, ◌+◌, ◌≤◌, ◌<◌, ◌++◌, map, length, IfOk, OnOk, MatchOption, IsTrue};
ghost use Rattle.std.specs.Prelude.{string_bytes};
ghost use Rattle.std.specs.List.{list_all};
ghost use Rattle.xbrl_values.specs.Pointer.{pointer as pointer_lem, escaped, escaped_byte};
ghost use Rattle.xbrl_values.specs.Pointer.{is_plain_byte as is_plain_byte_lem};

use std::alloc::{AllocError, Global};

/// The pointer to the member that a path of names leads to (RFC 6901, section 3): a slash before each name, in which
/// `~` is written `~0` and a slash `~1`. The pointer of no names is empty. It fails if memory runs out.
pub fn pointer(alloc: Global, path: &[&str]) -> Result<String, AllocError>
    ensures { IfOk result (λ place. string_bytes place ≡ pointer_lem (map (λ name. name.now) path.now)) }
{
    let mut place = String::with_capacity(alloc, least_len(path))?;
    for name in path {
        place.push('/')?;
        push_escaped(&mut place, name)?;
    }
    Ok(place)
}

// How many bytes the pointer has if nothing in it is escaped.
fn least_len(path: &[&str]) -> usize {
    let mut len = 0usize;
    for name in path {
        len = len.saturating_add(name.len()).saturating_add(1);
    }
    len
}

/// Whether the pointer of that path has at most that many bytes. The pointer is not made to find out.
pub fn is_within(path: &[&str], limit: usize) -> bool
    ensures { IsTrue result ↔ (length (pointer_lem (map (λ name. name.now) path.now)) ≤ limit) }
{
    let mut room = limit;
    for name in path {
        let Some(left) = room_after(room, name) else {
            return false;
        };
        room = left;
    }
    true
}

fn push_escaped(place: &mut String, name: &str) -> Result<(), AllocError>
    ensures { OnOk result (string_bytes place.new ≡ string_bytes place.old ++ escaped name.now) }
{
    if is_plain(name) {
        return place.push_str(name);
    }
    for character in name.chars() {
        match character {
            '~' => place.push_str("~0")?,
            '/' => place.push_str("~1")?,
            _ => place.push(character)?,
        }
    }
    Ok(())
}

// Whether a name is written as it is.
fn is_plain(name: &str) -> bool
    ensures { result ≡ list_all is_plain_byte_lem name.now }
{
    name.bytes().all(is_plain_byte)
}

fn is_plain_byte(byte: u8) -> bool
    ensures { result ≡ is_plain_byte_lem byte }
{
    !matches!(byte, b'~' | b'/')
}

// What is left of the room after a slash and the name.
fn room_after(room: usize, name: &str) -> Option<usize>
    ensures { MatchOption result (room < length (escaped name.now) + 1)
        (λ left. left + (length (escaped name.now) + 1) ≡ room) }
{
    let mut room = room.checked_sub(1)?;
    for byte in name.bytes() {
        room = room.checked_sub(escaped_len(byte))?;
    }
    Some(room)
}

fn escaped_len(byte: u8) -> usize
    ensures { result ≡ length (escaped_byte byte) }
{
    match byte {
        b'~' | b'/' => 2,
        _ => 1,
    }
}
