//! The parts of a JSON Pointer (RFC 6901).
ghost use Rattle.std.specs.Prelude.{◌≡◌, ◌∷◌, ◌<◌, ◌≤◌, ◌==◌, drop, length, slice_index, IfOk};
ghost use Rattle.serde_json.specs.Find.{unescape, index_of};

use fast_float::Numeral;
use std::alloc::{AllocError, Global};

/// The index that a part writes: digits, with no 0 before another.
pub(crate) fn index_in(part: &str) -> Option<usize>
    ensures { result ≡ index_of part.now }
{
    let bytes = part.as_bytes();
    let numeral = Numeral::scan(bytes);
    let index = numeral.to_u64()?;
    if (numeral.len() == bytes.len()) & ((bytes.len() == 1) | !starts_with_zero(bytes)) {
        Some(index as usize)
    } else {
        None
    }
}

fn starts_with_zero(bytes: &[u8]) -> bool
    ensures { result ≡ (slice_index bytes.now 0 == 48) }
{
    !bytes.is_empty() && bytes[0] == b'0'
}

/// The name that a part stands for, with `~0` for `~` and `~1` for a slash.
pub(crate) fn unescaped(alloc: Global, part: &str) -> Result<Vec<u8>, AllocError>
    ensures { IfOk result (λ name. name.items ≡ unescape part.now) }
{
    let bytes = part.as_bytes();
    let mut name = Vec::with_capacity(alloc, bytes.len())?;
    let mut at = 0;
    while at < bytes.len() {
        let (byte, next) = unescaped_at(bytes, at);
        name.push(byte)?;
        at = next;
    }
    Ok(name)
}

fn unescaped_at(part: &[u8], at: usize) -> (u8, usize)
    requires { at < length part.now }
    ensures value { unescape (drop at part.now) ≡ result.0 ∷ unescape (drop result.1 part.now) }
    ensures next { (at < result.1) × (result.1 ≤ length part.now) }
{
    let byte = part[at];
    if at + 1 == part.len() {
        return (byte, at + 1);
    }
    let after = part[at + 1];
    if byte == b'~' && after == b'1' {
        (b'/', at + 2)
    } else if byte == b'~' && after == b'0' {
        (b'~', at + 2)
    } else {
        (byte, at + 1)
    }
}
