//! What is wrong with a body that is no JSON text.
ghost use Rattle.std.specs.Prelude.{◌≡◌, IfOk};
ghost use Rattle.finding_lines.specs.Lines.{IsFaultIn, fault_words};

use json::Scratch;
use json_tree::{Unread, read_tree};
use report_places::{Position, position_of};
use serde_json::Value;
use std::alloc::{AllocError, Global};

/// Where a body stops being JSON, and whether more bytes could mend it.
#[derive(Clone, Copy)]
pub(crate) struct SyntaxFault {
    pub position: Position,
    pub is_cut: bool,
}

impl SyntaxFault {
    /// At the first byte.
    pub(crate) const AT_THE_START: SyntaxFault = SyntaxFault {
        position: Position { line: 1, column: 1 },
        is_cut: false,
    };

    /// What is wrong there.
    pub(crate) fn words(self) -> &'static str
        ensures { result.now ≡ fault_words self }
    {
        if self.is_cut {
            "the body ends too soon"
        } else {
            "the body is not valid JSON"
        }
    }
}

/// Where and why the reader does not read the body; `None` if it reads it.
pub(crate) fn fault_in(alloc: Global, body: &[u8]) -> Result<Option<SyntaxFault>, AllocError>
    ensures { IfOk result (IsFaultIn body.now) }
{
    let mut scratch = Scratch::new(alloc);
    match read_tree(alloc, body, &mut scratch) {
        Ok(_) => Ok(None),
        Err(Unread::Memory) => Err(AllocError),
        Err(Unread::NotJson) => fault_of(alloc, body),
    }
}

/// The same of a body that is no JSON text. `serde_json` alone says where.
fn fault_of(alloc: Global, body: &[u8]) -> Result<Option<SyntaxFault>, AllocError>
    ensures { IfOk result (IsFaultIn body.now) }
{
    match Value::from_slice(alloc, body) {
        Ok(_) => Ok(None),
        Err(error) if error.is_memory() => Err(AllocError),
        Err(error) => {
            let is_cut = error.is_eof();
            let offset = if is_cut {
                body.len()
            } else {
                offset_of(body, error.line(), error.column())
            };
            Ok(Some(SyntaxFault {
                position: position_of(body, offset),
                is_cut,
            }))
        }
    }
}

/// The offset of the byte in that column of that line. The reader counts bytes in its columns; those that are shown
/// count characters, as in editors.
fn offset_of(body: &[u8], line: usize, column: usize) -> usize {
    let mut line_feeds = line.saturating_sub(1);
    for (index, byte) in body.iter().enumerate() {
        if line_feeds == 0 {
            return index.saturating_add(column).saturating_sub(1);
        }
        if *byte == b'\n' {
            line_feeds -= 1;
        }
    }
    body.len()
}
