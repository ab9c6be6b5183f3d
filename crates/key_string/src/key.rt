//! Keys: how one is read from a field's value, and how one is written.

ghost use Rattle.std.specs.Prelude.{◌≡◌, ◌↔◌, ℕ, List, ◌++◌, IsTrue, IfOk, IfErr, OnOk, OnErr, MatchOption};
ghost use Rattle.std.specs.Prelude.{string_bytes, position, not, IfNone};
ghost use Rattle.key_string.specs.Key.{is_key, is_printable, IsPrintable, spelling, SpellsKey, IsKey, IsTextFault};
ghost use Rattle.key_string.specs.Key.{IsFieldFault, IsNoString, IsStringOf, BeginsNoCharacter, IsCharacterAt};
ghost use Rattle.std.specs.Io.{StartsWith};
ghost use Rattle.std.specs.List.{list_all};

use crate::fault::KeyFault;
use std::alloc::{AllocError, Global};
use std::marker::Model;

const MAX_KEY_LEN: usize = 1024;

/// A key: 1 to 1,024 characters of %x20-7E. The characters are those of a String (RFC 8941, section
/// 3.3.3), and the limit is an own rule.
#[derive(Drop, Debug)]
pub struct KeyText {
    text: String,
}

impl Model for KeyText {
    ghost Value = { List ℕ };

    ghost view = { λ key. string_bytes key.text };

    ghost invariant = { λ key. IsKey (string_bytes key.text) };
}

impl KeyText {
    /// The key with this text. The error is the first of `Empty`, `TooLong` and `NotPrintable` that holds. It is
    /// `Memory` only if the text is a key, and never `NotString`.
    pub fn new(alloc: Global, text: &str) -> Result<KeyText, KeyFault>
        ensures ok { IfOk result (λ key. IsKey key × (key ≡ text.now)) }
        ensures fault { IfErr result (IsTextFault text.now) }
    {
        if text.is_empty() {
            return Err(KeyFault::Empty);
        }
        if text.len() > MAX_KEY_LEN {
            return Err(KeyFault::TooLong);
        }
        if let Some(at) = first_unprintable(text.as_bytes()) {
            return Err(KeyFault::NotPrintable { at });
        }
        let text = String::from_str(alloc, text)?;
        Ok(KeyText { text })
    }

    /// The key's text, without quotes and escapes.
    pub fn as_str(&self) -> &str
        ensures value { result.now ≡ self.now }
        ensures key { IsKey self.now }
    {
        self.text.as_str()
    }

    /// Whether the two keys have the same text.
    pub fn equals(&self, other: &KeyText) -> bool
        ensures { IsTrue result ↔ (self.now ≡ other.now) }
    {
        self.text.as_str() == other.text.as_str()
    }
}

/// The key that a field's value spells (RFC 8941, section 3.3.3). The value is a String and nothing else: no spaces
/// around it, and no parameters (own rule). The error is `Memory` only if the value spells a key.
pub fn read_key(alloc: Global, field: &[u8]) -> Result<KeyText, KeyFault>
    ensures ok { IfOk result (λ key. IsKey key × SpellsKey field.now key) }
    ensures fault { IfErr result (IsFieldFault field.now) }
{
    match count_characters(field) {
        None => Err(KeyFault::NotString),
        Some(0) => Err(KeyFault::Empty),
        Some(1..=MAX_KEY_LEN) => Ok(unquote(alloc, field)?),
        Some(_) => Err(KeyFault::TooLong),
    }
}

/// Appends the one spelling of a key: its characters between double quotes, with a backslash before
/// each double quote and backslash (RFC 8941, section 4.1.6). An `Err` changes nothing.
pub fn append_key(key: &KeyText, out: &mut Vec<u8>) -> Result<(), AllocError>
    ensures ok { OnOk result (out.new.items ≡ out.old.items ++ spelling key.now) }
    ensures err { OnErr result (out.new.items ≡ out.old.items) }
{
    let start = out.len();
    let written = push_quoted(key.as_str(), out);
    if written.is_err() {
        out.truncate(start);
    }
    written
}

/// How many characters a String has.
fn count_characters(field: &[u8]) -> Option<usize>
    ensures { MatchOption result (IsNoString field.now) (λ count. IsStringOf field.now count) }
{
    let mut rest = field.strip_prefix(b"\"")?;
    let mut count = 0;
    while let Some((_, after)) = split_character(rest) {
        count += 1;
        rest = after;
    }
    if rest == b"\"".as_slice() {
        Some(count)
    } else {
        None
    }
}

/// The key that a String spells.
fn unquote(alloc: Global, field: &[u8]) -> Result<KeyText, AllocError>
    requires { (text : List ℕ) × SpellsKey field.now text × IsKey text }
    ensures { IfOk result (λ key. IsKey key × SpellsKey field.now key) }
{
    let mut text = String::new(alloc);
    let mut rest = &field[1..];
    while let Some((character, after)) = split_character(rest) {
        text.push(char::from(character))?;
        rest = after;
    }
    Ok(KeyText { text })
}

/// The first character of a String's inside, and the bytes after it.
fn split_character(bytes: &[u8]) -> Option<(u8, &[u8])>
    ensures { MatchOption result (BeginsNoCharacter bytes.now) (λ split. IsCharacterAt bytes.now split.0 split.1.now) }
{
    match bytes {
        [b'\\', byte @ (b'"' | b'\\'), rest @ ..] => Some((*byte, rest)),
        [b'"' | b'\\', ..] => None,
        [byte, rest @ ..] if is_printable(*byte) => Some((*byte, rest)),
        _ => None,
    }
}

fn push_quoted(text: &str, out: &mut Vec<u8>) -> Result<(), AllocError>
    ensures ok { OnOk result (out.new.items ≡ out.old.items ++ spelling text.now) }
    ensures err { OnErr result (StartsWith out.new.items out.old.items) }
{
    out.push(b'"')?;
    for byte in text.as_bytes() {
        if matches!(*byte, b'"' | b'\\') {
            out.push(b'\\')?;
        }
        out.push(*byte)?;
    }
    out.push(b'"')?;
    Ok(())
}

/// Whether these bytes are the text of a key: 1 to 1,024 characters of %x20-7E.
pub fn is_key(text: &[u8]) -> bool
    ensures value { result ≡ is_key text.now }
    ensures key { IsTrue result ↔ IsKey text.now }
{
    !text.is_empty() && text.len() <= MAX_KEY_LEN && are_printable(text)
}

fn are_printable(bytes: &[u8]) -> bool
    ensures { result ≡ list_all is_printable bytes.now }
{
    bytes.iter().all(|byte| is_printable(*byte))
}

fn first_unprintable(bytes: &[u8]) -> Option<usize>
    ensures first { result ≡ position (λ c. not (is_printable c)) bytes.now }
    ensures none { IfNone result (IsPrintable bytes.now) }
{
    bytes.iter().position(|byte| !is_printable(*byte))
}

fn is_printable(byte: u8) -> bool
    ensures { result ≡ is_printable byte }
{
    matches!(byte, b' '..=b'~')
}
