//! What was written to a file since it was opened. It is kept in memory.

ghost use Rattle.std.specs.Prelude.{◌≡◌, [], OnOk, OnErr};
ghost use Rattle.database_places.specs.Changes.{laid, laid_over, written_over, zeroed_from, IsAfter};

use std::alloc::{AllocError, Global};

/// One change of a file.
#[derive(Drop)]
pub enum Change {
    /// These bytes were written from this offset on.
    Write { at: usize, bytes: Vec<u8> },
    /// The file got this length. What lay beyond is 0, if the file becomes longer again.
    Cut { len: usize },
}

impl Change {
    /// Lays this change over bytes that begin at this offset of the file.
    fn lay(&self, at: usize, buf: &mut [u8])
        ensures { buf.new ≡ laid self.now at buf.old }
    {
        match self {
            Change::Write { at: start, bytes } => write_over(*start, bytes.as_slice(), at, buf),
            Change::Cut { len } => zero_from(*len, at, buf),
        }
    }
}

/// Lays bytes that were written from `start` on over those that begin at `at`.
fn write_over(start: usize, bytes: &[u8], at: usize, buf: &mut [u8])
    ensures { buf.new ≡ written_over start bytes.now at buf.old }
{
    let before = start.saturating_sub(at);
    let skipped = at.saturating_sub(start);
    if before >= buf.len() || skipped >= bytes.len() {
        return;
    }
    let count = (buf.len() - before).min(bytes.len() - skipped);
    buf[before..before + count].copy_from_slice(&bytes[skipped..skipped + count]);
}

/// Makes 0 of what lies beyond this length of the file, in bytes that begin at `at`.
fn zero_from(len: usize, at: usize, buf: &mut [u8])
    ensures { buf.new ≡ zeroed_from len at buf.old }
{
    let kept = len.saturating_sub(at);
    if kept < buf.len() {
        buf[kept..].fill(0);
    }
}

/// The changes of a file, the oldest first.
#[derive(Drop)]
pub struct Changes {
    made: Vec<Change>,
}

impl Changes {
    /// No change.
    pub(crate) fn new(alloc: Global) -> Changes
        ensures { result.made.items ≡ [] }
    {
        Changes {
            made: Vec::new(alloc),
        }
    }

    /// Keeps bytes that are written from this offset on. If memory is lacking, nothing is written.
    pub(crate) fn write(&mut self, at: usize, bytes: &[u8]) -> Result<(), AllocError>
        ensures written { OnOk result (IsAfter self.old self.new (written_over at bytes.now)) }
        ensures refused { OnErr result (self.new.made.items ≡ self.old.made.items) }
    {
        let bytes = bytes.to_vec(*self.made.allocator())?;
        self.made.push(Change::Write { at, bytes })?;
        Ok(())
    }

    /// Keeps that the file gets this length. If memory is lacking, it keeps its own.
    pub(crate) fn cut(&mut self, len: usize) -> Result<(), AllocError>
        ensures cut { OnOk result (IsAfter self.old self.new (zeroed_from len)) }
        ensures refused { OnErr result (self.new.made.items ≡ self.old.made.items) }
    {
        self.made.push(Change::Cut { len })?;
        Ok(())
    }

    /// Lays all changes over the bytes that the file itself has from this offset on.
    pub(crate) fn lay_over(&self, at: usize, buf: &mut [u8])
        ensures { buf.new ≡ laid_over self.now.made.items at buf.old }
    {
        for change in &self.made {
            change.lay(at, buf);
        }
    }
}
