//! How a text is written.

ghost use Rattle.std.specs.Prelude.{◌≡◌, IfOk, Some};
ghost use Rattle.terminal_text.specs.OneLine.{one_line};

use crate::character::write_character;
use std::alloc::{AllocError, Global};
use std::fmt;

/// A text from outside, which is written on one line, and moves nothing else on a terminal.
#[derive(Clone, Copy, Debug)]
pub struct OneLine<'a>(pub &'a str);

impl fmt::Display for OneLine<'_> {
    ghost output = { λ text. Some (one_line text.0.now) };

    fn fmt<W: fmt::Write>(&self, f: &mut fmt::Formatter<W>) -> fmt::Result {
        for c in self.0.chars() {
            write_character(c, f)?;
        }
        Ok(())
    }
}

/// The bytes of a text from outside as it is written on one line.
pub fn one_line(alloc: Global, text: &str) -> Result<Vec<u8>, AllocError>
    ensures { IfOk result (λ line. line.items ≡ one_line text.now) }
{
    let line = format!(in alloc; "{}", OneLine(text))?;
    Ok(line.into_bytes())
}
