//! A digest that grows by a request at a time.

ghost use Rattle.std.specs.Prelude.{◌≡◌, ◌+◌, ◌++◌, ◌∷◌, ◌<◌, ◌^◌, [], ℕ, List};
ghost use Rattle.hex.specs.Hex.{encode_lower};
ghost use Rattle.sha2.specs.Hashers.{Holds256};
ghost use Rattle.register_extracts.specs.Digest.{IsDigestOf, Row as Asked, line, number_text, body_text};
ghost use Rattle.register_extracts.specs.Digest.{next_digest};
ghost use Rattle.register_extracts.specs.Views.{view_row};

use crate::row::Row;
use hex::encode_to_slice;
use itoa::Buffer;
use sha2::{Digest as Hasher, Sha256};

/// The digest of so many requests, from the first on.
#[derive(Clone, Copy)]
pub struct Digest {
    count: u64,
    bytes: [u8; 32],
}

impl Digest {
    ghost use Rattle.register_extracts.specs.Views.{count_of, bytes_of};

    /// The digest of no request.
    pub fn new() -> Digest
        ensures { IsDigestOf (count_of result) (bytes_of result) [] }
    {
        Digest {
            count: 0,
            bytes: Sha256::digest(b""),
        }
    }

    /// The digest with one request more.
    pub fn add(&mut self, row: &Row<'_>)
        requires { count_of self.old < 2 ^ 63 }
        ensures counted { count_of self.new ≡ count_of self.old + 1 }
        ensures digested { (rows : List Asked) → IsDigestOf (count_of self.old) (bytes_of self.old) rows
            → IsDigestOf (count_of self.new) (bytes_of self.new) (rows ++ view_row row.now ∷ []) }
    {
        let seq = self.count + 1;
        self.bytes = next(&self.bytes, seq, row);
        self.count = seq;
    }

    /// How many requests it is of.
    pub fn count(&self) -> u64
        ensures { result ≡ count_of self.now }
    {
        self.count
    }

    /// Its bytes.
    pub fn bytes(&self) -> [u8; 32]
        ensures { result ≡ bytes_of self.now }
    {
        self.bytes
    }

    /// Its text: 64 hexadecimal digits.
    pub fn text(&self) -> [u8; 64]
        ensures { result ≡ encode_lower (bytes_of self.now) }
    {
        text_of(&self.bytes)
    }
}

/// The digest with one request more, at this place.
fn next(before: &[u8; 32], seq: u64, row: &Row<'_>) -> [u8; 32]
    ensures { result ≡ next_digest before.now seq (view_row row.now) }
{
    let mut hasher = Sha256::new();
    hasher.update(before.as_slice());
    add_number(&mut hasher, Some(seq));
    add_line(&mut hasher, row.filer.as_bytes());
    add_line(&mut hasher, row.key.as_bytes());
    add_number(&mut hasher, row.target);
    add_number(&mut hasher, row.number);
    add_number(&mut hasher, row.moment);
    add_body(&mut hasher, row.body);
    hasher.finalize()
}

/// A text, and the line feed that ends it.
fn add_line(hasher: &mut Sha256, text: &[u8])
    ensures { (m : List ℕ) → Holds256 hasher.old m → Holds256 hasher.new (m ++ line text.now) }
{
    hasher.update(text);
    hasher.update(b"\n");
}

/// A number in decimal on a line, or `-`.
fn add_number(hasher: &mut Sha256, number: Option<u64>)
    ensures { (m : List ℕ) → Holds256 hasher.old m → Holds256 hasher.new (m ++ line (number_text number)) }
{
    match number {
        Some(number) => add_line(hasher, Buffer::new().format(number).as_bytes()),
        None => add_line(hasher, b"-"),
    }
}

/// The digest of a body in hexadecimal digits on a line.
#[tactic(auto, unfolding(crate::specs::Digest::body_text))]
fn add_body(hasher: &mut Sha256, body: &[u8])
    ensures { (m : List ℕ) → Holds256 hasher.old m → Holds256 hasher.new (m ++ line (body_text body.now)) }
{
    add_line(hasher, &text_of(&Sha256::digest(body)));
}

/// A digest in hexadecimal digits.
fn text_of(digest: &[u8; 32]) -> [u8; 64]
    ensures { result ≡ encode_lower digest.now }
{
    let mut text = [0; 64];
    let _fits = encode_to_slice(digest, &mut text);
    text
}
