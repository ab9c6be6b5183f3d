//! A file that is only read. What is written to it is kept in memory, over what the file has, and ends with the value.
//! The file itself is opened for reading, and nothing here could write to it: `ReadOnlyFile` holds no name, and calls
//! nothing of its file but `read_at`.
//!
//! Each method notes itself with its answer, as those of the kit's `Host` do, so that what is proved over a file holds
//! over this one: if what is noted is what a file would answer that held some bytes. A sync succeeds and does nothing:
//! it makes none of the changes durable, and a crash leaves the file as it is.

ghost use Rattle.std.specs.Prelude.{◌≡◌, ◌<◌, ◌≤◌, ◌^◌, ◌-◌, true, false, [], ◌∷◌, length, take, is_ok};
ghost use Rattle.std.specs.Prelude.{IfOk, OnOk, OnErr, MatchResult};
ghost use Rattle.sqlite_disk.specs.Events.{measured, read, read_under, written, cut, flushed};
ghost use Rattle.sqlite_disk.specs.Refusal.{is_no_room, finds_no_room, as_number};
ghost use Rattle.database_places.specs.ReadOnly.{IsNew, IsEmptyButFor, Shows, IsSame, IsWritten, IsCut, EndsInZeros};

use crate::reading::changes::Changes;
use found_files::{CUT, FLUSHED, MEASURED, READ, Record, SETTLED, TESTED, WRITTEN};
use sqlite_disk::{Calls, is_no_room};
use std::alloc::{AllocError, Global};
use std::os::unix::fs::FileExt;
use std::{fs, io};

const MAX_OFFSET: usize = (1 << 63) - 1;

/// A file that is only read, or none, and what was written over it.
#[derive(Drop)]
pub struct ReadOnlyFile {
    file: Option<fs::File>,
    /// The bytes of the file as it was opened.
    file_len: usize,
    /// The bytes after all changes.
    len: usize,
    changes: Changes,
    calls: Record,
}

impl ReadOnlyFile {
    /// A file with nothing written over it. It has to be open for reading, and need not be for writing.
    pub(crate) fn new(alloc: Global, file: fs::File, key: u64) -> io::Result<ReadOnlyFile>
        ensures { IfOk result (IsNew key) }
    {
        let file_len = file.metadata()?.len() as usize;
        let mut calls = Record::new();
        calls.note(&[SETTLED, key, 0, 1], &[]);
        Ok(ReadOnlyFile {
            file: Some(file),
            file_len,
            len: file_len,
            changes: Changes::new(alloc),
            calls,
        })
    }

    /// No file, with these bytes.
    pub(crate) fn of_bytes(
        alloc: Global,
        bytes: &[u8],
        key: u64,
    ) -> Result<ReadOnlyFile, AllocError>
        ensures { IfOk result (IsEmptyButFor bytes.now key) }
    {
        let mut changes = Changes::new(alloc);
        changes.write(0, bytes)?;
        let mut calls = Record::new();
        calls.note(&[SETTLED, key, 0, 1], &[]);
        Ok(ReadOnlyFile {
            file: None,
            file_len: 0,
            len: bytes.len(),
            changes,
            calls,
        })
    }

    /// Reads bytes from `at` on as they are after all changes, and answers how many: all that were asked for, or fewer
    /// at the end, or if the system gave fewer.
    fn read(&self, at: usize, buf: &mut [u8]) -> io::Result<usize>
        requires { 0 < length buf.old }
        ensures count { IfOk result (λ n. (0 < n) × (n ≤ length buf.old) × (at < 2 ^ 63)) }
        ensures shown { IfOk result (λ n. Shows self.now at (take n buf.new)) }
    {
        if at > MAX_OFFSET {
            return Err(io::ErrorKind::InvalidInput.into());
        }
        if at >= self.len {
            return Err(io::ErrorKind::UnexpectedEof.into());
        }
        let wanted = buf.len().min(self.len - at);
        let count = under(&self.file, self.file_len, at, &mut buf[..wanted])?;
        self.changes.lay_over(at, &mut buf[..count]);
        Ok(count)
    }

    /// Writes bytes over what the file shows from `at` on, all or none.
    fn write(&mut self, at: usize, bytes: &[u8]) -> io::Result<usize>
        requires { 0 < length bytes.now }
        ensures count { IfOk result (λ n. (n ≡ length bytes.now) × (at < 2 ^ 63)) }
        ensures written { OnOk result (IsWritten at bytes.now self.old self.new) }
        ensures refused { OnErr result (IsSame self.old self.new) }
        ensures unnoted { self.new.calls ≡ self.old.calls }
    {
        if at > MAX_OFFSET {
            return Err(io::ErrorKind::InvalidInput.into());
        }
        let Some(end) = at.checked_add(bytes.len()) else {
            return Err(io::ErrorKind::InvalidInput.into());
        };
        if self.changes.write(at, bytes).is_err() {
            return Err(io::ErrorKind::OutOfMemory.into());
        }
        self.len = self.len.max(end);
        Ok(bytes.len())
    }

    /// Gives what the file shows another length.
    fn cut(&mut self, len: usize) -> io::Result<()>
        ensures cut { OnOk result (IsCut len self.old self.new) }
        ensures refused { OnErr result (IsSame self.old self.new) }
        ensures unnoted { self.new.calls ≡ self.old.calls }
    {
        if self.changes.cut(len).is_err() {
            return Err(io::ErrorKind::OutOfMemory.into());
        }
        self.len = len;
        Ok(())
    }
}

/// Reads the bytes that the file itself has from `at` on, and 0 for each beyond its end, and answers how many came.
fn under(file: &Option<fs::File>, file_len: usize, at: usize, buf: &mut [u8]) -> io::Result<usize>
    requires { 0 < length buf.old }
    ensures count { IfOk result (λ n. (0 < n) × (n ≤ length buf.old)) }
    ensures beyond { IfOk result (λ n. EndsInZeros (file_len - at) (take n buf.new)) }
{
    let below = file_len.saturating_sub(at).min(buf.len());
    if let Some(file) = file {
        if below > 0 {
            let got = file.read_at(&mut buf[..below], at as u64)?;
            if got == 0 {
                return Err(io::ErrorKind::UnexpectedEof.into());
            }
            if got < below {
                return Ok(got);
            }
        }
    }
    buf[below..].fill(0);
    Ok(buf.len())
}

impl Calls for ReadOnlyFile {
    ghost history = { λ f. f.calls.events };

    fn len(&mut self) -> io::Result<usize>
        ensures told { IfOk result (λ n. n ≡ self.old.len) }
        ensures same { IsSame self.old self.new }
        ensures noted { MatchResult result
            (λ n. self.new.calls.events ≡ measured true n ∷ self.old.calls.events)
            (λ _. self.new.calls.events ≡ measured false 0 ∷ self.old.calls.events) }
    {
        self.calls.note(&[MEASURED, self.len as u64, 0, 1], &[]);
        Ok(self.len)
    }

    fn read_some(&mut self, at: usize, buf: &mut [u8]) -> io::Result<usize>
        requires { 0 < length buf.old }
        ensures count { IfOk result (λ n. (0 < n) × (n ≤ length buf.old) × (at < 2 ^ 63)) }
        ensures shown { IfOk result (λ n. Shows self.new at (take n buf.new)) }
        ensures same { IsSame self.old self.new }
        ensures noted { MatchResult result
            (λ n. self.new.calls.events ≡ read at (length buf.old) true (take n buf.new) ∷ self.old.calls.events)
            (λ _. self.new.calls.events ≡ read at (length buf.old) false [] ∷ self.old.calls.events) }
    {
        let (at64, len) = (at as u64, buf.len() as u64);
        let answer = self.read(at, buf);
        match answer {
            Ok(n) => self.calls.note(&[READ, at64, len, 1], &buf[..n]),
            Err(_) => self.calls.note(&[READ, at64, len, 0], &[]),
        }
        answer
    }

    fn read_under(&mut self, key: u64, want: u64, at: usize, buf: &mut [u8]) -> io::Result<usize>
        requires { 0 < length buf.old }
        ensures count { IfOk result (λ n. n ≤ length buf.old) }
        ensures shown { IfOk result (λ n. Shows self.new at (take n buf.new)) }
        ensures same { IsSame self.old self.new }
        ensures noted { MatchResult result
            (λ n. self.new.calls.events
            ≡ read_under key want at (length buf.old) true (take n buf.new) ∷ self.old.calls.events)
            (λ _. self.new.calls.events
            ≡ read_under key want at (length buf.old) false [] ∷ self.old.calls.events) }
    {
        let (at64, len) = (at as u64, buf.len() as u64);
        let answer = self.read(at, buf);
        match answer {
            Ok(n) => self
                .calls
                .note(&[TESTED, at64, len, 1, key, want], &buf[..n]),
            Err(_) => self.calls.note(&[TESTED, at64, len, 0, key, want], &[]),
        }
        answer
    }

    fn write_some(&mut self, at: usize, bytes: &[u8]) -> io::Result<usize>
        requires { 0 < length bytes.now }
        ensures count { IfOk result (λ n. (0 < n) × (n ≤ length bytes.now) × (at < 2 ^ 63)) }
        ensures whole { IfOk result (λ n. n ≡ length bytes.now) }
        ensures written { OnOk result (IsWritten at bytes.now self.old self.new) }
        ensures refused { OnErr result (IsSame self.old self.new) }
        ensures noted { MatchResult result
            (λ n. self.new.calls.events ≡ written at bytes.now true n ∷ self.old.calls.events)
            (λ e. self.new.calls.events
            ≡ written at bytes.now false (as_number (is_no_room e)) ∷ self.old.calls.events) }
    {
        let answer = self.write(at, bytes);
        match answer {
            Ok(n) => self.calls.note(&[WRITTEN, at as u64, n as u64, 1], bytes),
            Err(error) => self.calls.note(
                &[WRITTEN, at as u64, u64::from(is_no_room(&error)), 0],
                bytes,
            ),
        }
        answer
    }

    fn resize(&mut self, len: usize) -> io::Result<()>
        ensures cut { OnOk result (IsCut len self.old self.new) }
        ensures refused { OnErr result (IsSame self.old self.new) }
        ensures noted { self.new.calls.events
            ≡ cut len (is_ok result) (as_number (finds_no_room result)) ∷ self.old.calls.events }
    {
        let answer = self.cut(len);
        match answer {
            Ok(()) => self.calls.note(&[CUT, len as u64, 0, 1], &[]),
            Err(error) => self
                .calls
                .note(&[CUT, len as u64, u64::from(is_no_room(&error)), 0], &[]),
        }
        answer
    }

    fn sync(&mut self) -> io::Result<()>
        ensures same { IsSame self.old self.new }
        ensures noted { self.new.calls.events
            ≡ flushed (is_ok result) (as_number (finds_no_room result)) ∷ self.old.calls.events }
    {
        self.calls.note(&[FLUSHED, 0, 0, 1], &[]);
        Ok(())
    }
}
