//! The line for people.
ghost use Rattle.std.specs.Prelude.{◌≡◌, IfOk};
ghost use Rattle.finding_lines.specs.Sentences.{head, tail, sentence as sentence_lem, shown_message};

use crate::text::copied;
use report_places::Position;
use std::alloc::{AllocError, Global};
use terminal_text::one_line;
use xbrl_report::{Code, Finding};

/// `FILE:LINE:COLUMN: CODE: MESSAGE (PLACE)`.
pub(crate) fn sentence_of(
    alloc: Global,
    file: &str,
    position: Position,
    finding: &Finding,
    message: &[u8],
) -> Result<Vec<u8>, AllocError>
    ensures { IfOk result (λ written. written.items
        ≡ sentence_lem file.now position finding.now message.now) }
{
    let mut line = head(alloc, file, position, finding.code)?;
    line.extend_from_slice(&shown_message(alloc, message)?)?;
    line.extend_from_slice(&tail(alloc, finding.place.as_str())?)?;
    Ok(line)
}

/// The words of a message, in which the value may be any text.
fn shown_message(alloc: Global, message: &[u8]) -> Result<Vec<u8>, AllocError>
    ensures { IfOk result (λ shown. shown.items ≡ shown_message message.now) }
{
    let text = String::from_utf8_lossy(alloc, message)?;
    one_line(alloc, &text)
}

fn head(alloc: Global, file: &str, position: Position, code: Code) -> Result<Vec<u8>, AllocError>
    ensures { IfOk result (λ written. written.items ≡ head file.now position code) }
{
    let mut head = one_line(alloc, file)?;
    let Position { line, column } = position;
    let word = code.text();
    let rest = format!(in alloc; ":{line}:{column}: {word}: ")?;
    head.extend_from_slice(rest.as_bytes())?;
    Ok(head)
}

fn tail(alloc: Global, pointer: &str) -> Result<Vec<u8>, AllocError>
    ensures { IfOk result (λ written. written.items ≡ tail pointer.now) }
{
    let mut tail = copied(alloc, b" (")?;
    tail.extend_from_slice(&one_line(alloc, pointer)?)?;
    tail.extend_from_slice(b")\n")?;
    Ok(tail)
}
