//! The calls on a file that was opened, each noted with its answer.

ghost use Rattle.std.specs.Prelude.{◌≡◌, ◌<◌, ◌≤◌, ◌^◌, [], ◌∷◌, length, IfOk};
ghost use Rattle.sqlite_disk.specs.Events.{settled};

use crate::record::{CUT, FLUSHED, MEASURED, READ, Record, SETTLED, TESTED, WRITTEN};
use sqlite_disk::{Calls, Disk, is_no_room};
use std::io;

const MAX_OFFSET: usize = (1 << 63) - 1;

/// A file that reads and writes. What its type supposes of its first bytes is not used: that is said anew, of the calls
/// that are noted here.
#[derive(Drop)]
pub struct NotedFile<F: Disk> {
    file: F,
    calls: Record,
}

impl<F: Disk> NotedFile<F> {
    ghost use Rattle.found_files.specs.Calls.{calls_on};

    /// A file that was opened and settled now.
    pub fn new(file: F, key: u64) -> NotedFile<F>
        ensures { calls_on result ≡ settled key ∷ [] }
    {
        let mut calls = Record::new();
        calls.note(&[SETTLED, key, 0, 1], &[]);
        NotedFile { file, calls }
    }
}

fn measure<F: Disk>(file: &mut F) -> io::Result<usize> {
    if !file.may_be_used() {
        return Err(io::Error::other("a sync has failed"));
    }
    file.len()
}

/// Reads so many bytes as are asked for.
fn read<F: Disk>(file: &mut F, at: usize, buf: &mut [u8]) -> io::Result<usize>
    requires { 0 < length buf.old }
    ensures { IfOk result (λ n. (0 < n) × (n ≤ length buf.old) × (at < 2 ^ 63)) }
{
    if at > MAX_OFFSET || !file.may_be_used() {
        return Err(io::ErrorKind::InvalidInput.into());
    }
    file.read_at(at, buf)?;
    Ok(buf.len())
}

/// Writes all of these bytes, or some of them and answers an error.
fn write<F: Disk>(file: &mut F, at: usize, bytes: &[u8]) -> io::Result<usize>
    requires { 0 < length bytes.now }
    ensures { IfOk result (λ n. (0 < n) × (n ≤ length bytes.now) × (at < 2 ^ 63)) }
{
    if at > MAX_OFFSET || !file.may_be_used() {
        return Err(io::ErrorKind::InvalidInput.into());
    }
    file.write_at(at, bytes)?;
    Ok(bytes.len())
}

fn resize<F: Disk>(file: &mut F, len: usize) -> io::Result<()> {
    if !file.may_be_used() {
        return Err(io::Error::other("a sync has failed"));
    }
    file.set_len(len)
}

fn sync<F: Disk>(file: &mut F) -> io::Result<()> {
    if !file.may_be_used() {
        return Err(io::Error::other("a sync has failed"));
    }
    file.sync()
}

impl<F: Disk> Calls for NotedFile<F> {
    ghost history = { λ f. f.calls.events };

    fn len(&mut self) -> io::Result<usize> {
        let answer = measure(&mut self.file);
        match answer {
            Ok(n) => self.calls.note(&[MEASURED, n as u64, 0, 1], &[]),
            Err(_) => self.calls.note(&[MEASURED, 0, 0, 0], &[]),
        }
        answer
    }

    fn read_some(&mut self, at: usize, buf: &mut [u8]) -> io::Result<usize> {
        let (at64, len) = (at as u64, buf.len() as u64);
        let answer = read(&mut self.file, at, buf);
        match answer {
            Ok(n) => self.calls.note(&[READ, at64, len, 1], &buf[..n]),
            Err(_) => self.calls.note(&[READ, at64, len, 0], &[]),
        }
        answer
    }

    fn read_under(&mut self, key: u64, want: u64, at: usize, buf: &mut [u8]) -> io::Result<usize> {
        let (at64, len) = (at as u64, buf.len() as u64);
        let answer = read(&mut self.file, at, buf);
        match answer {
            Ok(n) => self
                .calls
                .note(&[TESTED, at64, len, 1, key, want], &buf[..n]),
            Err(_) => self.calls.note(&[TESTED, at64, len, 0, key, want], &[]),
        }
        answer
    }

    fn write_some(&mut self, at: usize, bytes: &[u8]) -> io::Result<usize> {
        let answer = write(&mut self.file, at, bytes);
        match answer {
            Ok(n) => self.calls.note(&[WRITTEN, at as u64, n as u64, 1], bytes),
            Err(error) => self.calls.note(
                &[WRITTEN, at as u64, u64::from(is_no_room(&error)), 0],
                bytes,
            ),
        }
        answer
    }

    fn resize(&mut self, len: usize) -> io::Result<()> {
        let answer = resize(&mut self.file, len);
        match answer {
            Ok(()) => self.calls.note(&[CUT, len as u64, 0, 1], &[]),
            Err(error) => self
                .calls
                .note(&[CUT, len as u64, u64::from(is_no_room(&error)), 0], &[]),
        }
        answer
    }

    fn sync(&mut self) -> io::Result<()> {
        let answer = sync(&mut self.file);
        match answer {
            Ok(()) => self.calls.note(&[FLUSHED, 0, 0, 1], &[]),
            Err(error) => self
                .calls
                .note(&[FLUSHED, 0, u64::from(is_no_room(&error)), 0], &[]),
        }
        answer
    }
}
