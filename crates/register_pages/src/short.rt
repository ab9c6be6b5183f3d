//! How a long text is shortened.

ghost use Rattle.std.specs.Prelude.{◌≡◌, ◌≤◌, ◌++◌, drop, length, take, OnOk};
ghost use Rattle.register_pages.specs.Reading.{AddsText};
ghost use Rattle.register_pages.specs.Short.{begins_character as begins_character_lem, characters as characters_lem};
ghost use Rattle.register_pages.specs.Short.{ellipsis, first_bytes as first_bytes_lem, shortened};
ghost use Rattle.register_pages.specs.Visible.{visible};

use crate::escaping::append_bytes;
use std::alloc::AllocError;

/// How many characters a shortened text has.
const SHOWN: usize = 120;

/// How many of them are the beginning of the text, before the ellipsis, and how many its end.
const BEGINNING: usize = 59;

const ENDING: usize = 60;

/// Appends what is written of a text, shortened if it has more than 120 characters.
pub(crate) fn append_shortened(written: &mut Vec<u8>, text: &str) -> Result<(), AllocError>
    ensures { OnOk result (AddsText (visible (shortened text.now)) written.old.items written.new.items) }
{
    let bytes = text.as_bytes();
    let characters = characters(bytes);
    if characters <= SHOWN {
        return append_bytes(written, bytes);
    }
    append_ends(
        written,
        bytes,
        first_bytes(bytes, BEGINNING),
        first_bytes(bytes, characters - ENDING),
    )
}

/// Appends what is written of the first bytes, an ellipsis, and the bytes that follow so many.
fn append_ends(
    written: &mut Vec<u8>,
    bytes: &[u8],
    first: usize,
    behind: usize,
) -> Result<(), AllocError>
    requires { (first ≤ length bytes.now) × (behind ≤ length bytes.now) }
    ensures { OnOk result (AddsText (visible (take first bytes.now ++ ellipsis ++ drop behind bytes.now))
        written.old.items written.new.items) }
{
    append_bytes(written, &bytes[..first])?;
    append_bytes(written, "…".as_bytes())?;
    append_bytes(written, &bytes[behind..])
}

/// Whether a character begins with this byte.
fn begins_character(byte: u8) -> bool
    ensures { result ≡ begins_character_lem byte }
{
    !matches!(byte, 0x80..=0xbf)
}

/// How many characters there are.
fn characters(bytes: &[u8]) -> usize
    ensures { result ≡ characters_lem bytes.now }
{
    let mut count = 0;
    for byte in bytes {
        if begins_character(*byte) {
            count += 1;
        }
    }
    count
}

/// How many bytes the first characters have, if there are so many.
fn first_bytes(bytes: &[u8], count: usize) -> usize
    ensures value { result ≡ first_bytes_lem count bytes.now }
    ensures within { result ≤ length bytes.now }
{
    let mut left = count;
    for (index, byte) in bytes.iter().enumerate() {
        if begins_character(*byte) {
            if left == 0 {
                return index;
            }
            left -= 1;
        }
    }
    bytes.len()
}
