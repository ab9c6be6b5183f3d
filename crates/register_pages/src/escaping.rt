//! How a text is written in HTML (HTML living standard, section 13.1.4).

ghost use Rattle.std.specs.Prelude.{◌≡◌, ◌∷◌, [], ◌++◌, false, true, OnOk, MatchOption};
ghost use Rattle.register_pages.specs.Reading.{AddsText, Refers, is_markup};
ghost use Rattle.register_pages.specs.Visible.{is_control, symbol as symbol_lem, visible, visible_byte};

use std::alloc::AllocError;

/// The reference that stands for a byte, if it is one of the five that markup is made of.
fn reference(byte: u8) -> Option<&'static str>
    ensures { MatchOption result (is_markup byte ≡ false) (λ name. Refers name.now byte) }
{
    match byte {
        b'<' => Some("&lt;"),
        b'>' => Some("&gt;"),
        b'&' => Some("&amp;"),
        b'"' => Some("&quot;"),
        b'\'' => Some("&#39;"),
        _ => None,
    }
}

/// The last byte of the symbol of a control character, if the byte is one.
fn symbol(byte: u8) -> Option<u8>
    ensures { MatchOption result (is_control byte ≡ false)
        (λ last. (is_control byte ≡ true) × (symbol_lem byte ≡ 226 ∷ 144 ∷ last ∷ [])) }
{
    match byte {
        b'\t' | b'\n' => None,
        0..=31 => Some(byte + 128),
        127 => Some(161),
        _ => None,
    }
}

/// Appends a character that markup is not made of, of these three bytes.
fn append_symbol(written: &mut Vec<u8>, last: u8) -> Result<(), AllocError>
    ensures { OnOk result (written.new.items ≡ written.old.items ++ 226 ∷ 144 ∷ last ∷ []) }
{
    written.extend_from_slice(&[226, 144, last])
}

/// Appends what is written of a byte.
fn append_byte(written: &mut Vec<u8>, byte: u8) -> Result<(), AllocError>
    ensures { OnOk result (AddsText (visible_byte byte) written.old.items written.new.items) }
{
    if let Some(last) = symbol(byte) {
        return append_symbol(written, last);
    }
    match reference(byte) {
        Some(name) => written.extend_from_slice(name.as_bytes())?,
        None => written.push(byte)?,
    }
    Ok(())
}

/// Appends what is written of the bytes of a text, or of a part of one.
pub(crate) fn append_bytes(written: &mut Vec<u8>, bytes: &[u8]) -> Result<(), AllocError>
    ensures { OnOk result (AddsText (visible bytes.now) written.old.items written.new.items) }
{
    for byte in bytes {
        append_byte(written, *byte)?;
    }
    Ok(())
}
