//! Bytes in memory as a reader that never fails, and as a writer that fails if memory runs out.

ghost use Rattle.std.specs.Prelude.{◌≡◌, [], Some};
ghost use Rattle.http_wire.specs.Memory.{bytes_left, bytes_written, memory_refusals};

use crate::device::{DeviceFailed, Sink, Source};
use std::alloc::Global;

/// Bytes that are read from their front.
#[derive(Drop)]
pub struct MemoryReader<'a> {
    rest: &'a [u8],
}

impl<'a> MemoryReader<'a> {
    /// A reader of these bytes.
    pub fn new(bytes: &'a [u8]) -> MemoryReader<'a>
        ensures { bytes_left result ≡ bytes.now }
    {
        MemoryReader { rest: bytes }
    }
}

impl<'a> Source for MemoryReader<'a> {
    ghost left = { λ g. Some (bytes_left g) };

    ghost read_failures = { λ _. 0 };

    fn read(&mut self, room: &mut [u8]) -> Result<usize, DeviceFailed> {
        let rest = self.rest;
        let count = room.len().min(rest.len());
        room[..count].copy_from_slice(&rest[..count]);
        self.rest = &rest[count..];
        Ok(count)
    }
}

/// What was written so far. A write fails if memory runs out, and the failures are counted, up to 2^64 - 1.
#[derive(Drop)]
pub struct MemoryWriter {
    text: Vec<u8>,
    refused: u64,
}

impl MemoryWriter {
    /// A writer to which nothing was written yet.
    pub fn new(alloc: Global) -> MemoryWriter
        ensures text { bytes_written result ≡ [] }
        ensures fine { memory_refusals result ≡ 0 }
    {
        MemoryWriter {
            text: Vec::new(alloc),
            refused: 0,
        }
    }

    /// What was written.
    pub fn into_text(self) -> Vec<u8>
        ensures { result.items ≡ bytes_written self }
    {
        self.text
    }
}

impl Sink for MemoryWriter {
    ghost written = { λ k. Some (bytes_written k) };

    ghost write_failures = { memory_refusals };

    fn write(&mut self, text: &[u8]) -> Result<usize, DeviceFailed> {
        match self.text.extend_from_slice(text) {
            Ok(()) => Ok(text.len()),
            Err(_) => {
                self.refused = self.refused.saturating_add(1);
                Err(DeviceFailed)
            }
        }
    }
}
