//! What a peer answered, by the first bytes of its reply.

ghost use Rattle.std.specs.Prelude.{◌≡◌, Some, []};

use crate::written::Written;
use http_messages::{
    Block, Kind, ResponseHead, find_block, read_response, skipped_len, split_at_first,
};
use http_wire::{DeviceFailed, Sink, Source};
use serde_json::Value;
use std::alloc::{AllocError, Global};
use std::io::{self, Write};
use terminal_text::OneLine;

/// How many bytes of a reply are noted to see why it settles nothing.
pub(crate) const MOST_NOTED: usize = 8_192;

/// How many interim responses are skipped.
const MOST_INTERIM: usize = 8;

/// How many bytes of a peer's text are shown.
const MOST_SHOWN: usize = 200;

/// A reader or a writer whose first bytes are noted.
#[derive(Drop)]
pub(crate) struct Noted<T> {
    inner: T,
    /// How many are noted.
    most: usize,
    bytes: Vec<u8>,
    /// All that was written.
    pub(crate) written: Written,
}

impl<T: Drop> Noted<T> {
    /// The reader or writer, of which nothing was read or written. So many bytes are noted.
    pub(crate) fn new(alloc: Global, inner: T, most: usize) -> Noted<T>
        ensures { result.written.bytes ≡ [] }
    {
        Noted {
            inner,
            most,
            bytes: Vec::new(alloc),
            written: Written::new(),
        }
    }

    /// The bytes that were noted.
    pub(crate) fn into_bytes(self) -> Vec<u8> {
        let Noted {
            inner: _,
            most: _,
            bytes,
            written: _,
        } = self;
        bytes
    }
}

/// Notes these bytes, as many as there is room for.
fn note(bytes: &mut Vec<u8>, most: usize, more: &[u8]) {
    let room = most.saturating_sub(bytes.len());
    let taken = more.len().min(room);
    // If memory is short less is noted, and the exchange goes on.
    let _ = bytes.extend_from_slice(&more[..taken]);
}

impl<R: Source> Source for Noted<R> {
    ghost left = { λ n. R.left n.inner };

    ghost read_failures = { λ n. R.read_failures n.inner };

    fn read(&mut self, room: &mut [u8]) -> Result<usize, DeviceFailed> {
        let count = self.inner.read(room)?;
        note(&mut self.bytes, self.most, &room[..count]);
        Ok(count)
    }
}

impl<W: Sink> Sink for Noted<W> {
    ghost written = { λ n. Some n.written.bytes };

    ghost write_failures = { λ n. W.write_failures n.inner };

    fn write(&mut self, text: &[u8]) -> Result<usize, DeviceFailed> {
        let count = self.inner.write(text)?;
        note(&mut self.bytes, self.most, &text[..count]);
        self.written.note(&text[..count]);
        Ok(count)
    }
}

/// The front of a peer's text, with U+FFFD for bytes that are no UTF-8. It may still have any character.
fn front_of(alloc: Global, text: &[u8]) -> Result<String, AllocError> {
    String::from_utf8_lossy(alloc, &text[..text.len().min(MOST_SHOWN)])
}

/// The final reply among the bytes that were noted.
#[derive(Clone, Copy)]
struct Answer<'a> {
    head: ResponseHead,
    /// The number of the status and its phrase.
    status: &'a [u8],
    /// What follows the head.
    rest: &'a [u8],
}

impl<'a> Answer<'a> {
    /// The final reply, if its head was noted whole.
    fn of(noted: &'a [u8]) -> Option<Answer<'a>> {
        let mut bytes = noted;
        for _ in 0..=MOST_INTERIM {
            let (block, rest) = first_block(bytes)?;
            let head = read_response(block)?;
            if head.status >= 200 {
                let status = status_of(block);
                return Some(Answer { head, status, rest });
            }
            bytes = rest;
        }
        None
    }

    /// The problem details, if they were noted whole.
    fn details(&self, alloc: Global) -> Option<Value> {
        if self.head.kind != Kind::Problem {
            return None;
        }
        let len = self.head.content_len.ok()?;
        Value::from_slice(alloc, self.rest.get(..len)?).ok()
    }

    /// The `reason` of problem details.
    fn reason(&self, alloc: Global) -> Option<String> {
        let details = self.details(alloc)?;
        let reason = details.get("reason").and_then(Value::as_str)?;
        String::from_str(alloc, reason).ok()
    }

    /// Whether the one finding is that the filing cannot be replaced, which the report alone does not show.
    fn is_of_target(&self, alloc: Global) -> bool {
        match self.details(alloc) {
            Some(details) => details.get("findings").map_or(false, are_of_target),
            None => false,
        }
    }
}

/// Whether these findings are one, about the filing to be replaced.
fn are_of_target(findings: &Value) -> bool {
    match findings.as_array() {
        Some(list) => match list.as_slice() {
            [finding] => has_code(finding, "not-replaceable"),
            _ => false,
        },
        None => false,
    }
}

/// Whether a finding has this code.
fn has_code(finding: &Value, code: &str) -> bool {
    let found = finding.get("code").and_then(Value::as_str);
    found.map_or(false, |text| text == code)
}

/// The block at the front of the bytes, and what follows it.
fn first_block(bytes: &[u8]) -> Option<(&[u8], &[u8])> {
    let Block::End(end) = find_block(bytes) else {
        return None;
    };
    Some((bytes.get(skipped_len(bytes)..end)?, bytes.get(end..)?))
}

/// What the first line of a response has after its version (RFC 9112, section 4).
fn status_of(block: &[u8]) -> &[u8] {
    let (line, _) = split_at_first(block, b'\r');
    let (_, status) = split_at_first(line, b' ');
    status.unwrap_or(&[])
}

/// Says on the standard error what was answered for an entry that stays open.
pub(crate) fn tell_open<E: Write>(
    alloc: Global,
    id: u64,
    noted: &[u8],
    errors: &mut E,
) -> io::Result<()> {
    let Some(answer) = Answer::of(noted) else {
        return writeln!(errors, "outbox: entry {id}: the reply does not settle it");
    };
    let status = front_of(alloc, answer.status)?;
    let status = OneLine(status.as_str());
    match answer.reason(alloc) {
        Some(reason) => {
            let reason = front_of(alloc, reason.as_bytes())?;
            let reason = OneLine(reason.as_str());
            writeln!(errors, "outbox: entry {id}: answered {status}: {reason}")
        }
        None => writeln!(errors, "outbox: entry {id}: answered {status}"),
    }
}

/// Says on the standard error what to do with an entry that was refused.
pub(crate) fn tell_refused<E: Write>(
    alloc: Global,
    id: u64,
    noted: &[u8],
    errors: &mut E,
) -> io::Result<()> {
    let is_of_target = match Answer::of(noted) {
        Some(answer) => answer.is_of_target(alloc),
        None => false,
    };
    if is_of_target {
        writeln!(
            errors,
            "outbox: entry {id}: refused; the filing that it was sent to replace is not there, or was replaced already"
        )
    } else {
        writeln!(
            errors,
            "outbox: entry {id}: refused; the report has findings: outbox ask --entry {id} lists them"
        )
    }
}
