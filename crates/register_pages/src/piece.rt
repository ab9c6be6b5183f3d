//! What is HTML.

ghost use Rattle.std.specs.Prelude.{◌≡◌, ◌++◌, [], OnOk};
ghost use Rattle.std.specs.Fmt.{decimal};
ghost use Rattle.hex.specs.Hex.{encode_lower};
ghost use Rattle.register_extracts.specs.Views.{bytes_of};
ghost use Rattle.register_pages.specs.Reading.{AddsText};
ghost use Rattle.register_pages.specs.Short.{shortened};
ghost use Rattle.register_pages.specs.Visible.{visible};

use crate::escaping::append_bytes;
use crate::short::append_shortened;
use register_extracts::Digest;
use std::alloc::{AllocError, Global};
use std::marker::Model;

/// A piece of HTML, in UTF-8. It is made of constants of a program and of texts that were escaped, and joined: nothing
/// else becomes one.
#[derive(Drop)]
pub struct Markup {
    bytes: Vec<u8>,
}

impl Model for Markup {
    ghost use Rattle.std.specs.Prelude.{List, ℕ};

    ghost Value = { List ℕ };

    ghost view = { λ m. m.bytes.items };
}

impl Markup {
    /// No HTML yet.
    pub fn new(alloc: Global) -> Markup
        ensures { result ≡ [] }
    {
        Markup {
            bytes: Vec::new(alloc),
        }
    }

    /// Appends HTML that is written in the program.
    pub fn constant(&mut self, html: &'static str) -> Result<(), AllocError>
        ensures { OnOk result (self.new ≡ self.old ++ html.now) }
    {
        self.bytes.extend_from_slice(html.as_bytes())
    }

    /// Appends a text, whatever it holds, as HTML that reads as that text, with a symbol for each control character.
    pub fn text(&mut self, text: &str) -> Result<(), AllocError>
        ensures { OnOk result (AddsText (visible text.now) self.old self.new) }
    {
        append_bytes(&mut self.bytes, text.as_bytes())
    }

    /// Appends a text like `text`, shortened in the middle if it has more than 120 characters.
    pub fn short_text(&mut self, text: &str) -> Result<(), AllocError>
        ensures { OnOk result (AddsText (visible (shortened text.now)) self.old self.new) }
    {
        append_shortened(&mut self.bytes, text)
    }

    /// Appends a number in decimal.
    pub fn number(&mut self, alloc: Global, number: u64) -> Result<(), AllocError>
        ensures { OnOk result (self.new ≡ self.old ++ decimal number) }
    {
        let text = format!(in alloc; "{number}")?;
        self.bytes.extend_from_slice(text.as_bytes())
    }

    /// Appends the hexadecimal digits of a digest.
    pub(crate) fn digest(&mut self, digest: &Digest) -> Result<(), AllocError>
        ensures { OnOk result (self.new ≡ self.old ++ encode_lower (bytes_of digest.now)) }
    {
        self.bytes.extend_from_slice(&digest.text())
    }

    /// Appends another piece.
    pub fn piece(&mut self, more: &Markup) -> Result<(), AllocError>
        ensures { OnOk result (self.new ≡ self.old ++ more.now) }
    {
        self.bytes.extend_from_slice(&more.bytes)
    }

    /// The bytes of the HTML.
    pub fn as_bytes(&self) -> &[u8]
        ensures { result.now ≡ self.now }
    {
        &self.bytes
    }
}
