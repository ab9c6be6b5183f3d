//! Readers and writers whose bytes contracts can name, and which count their failures.
ghost use Rattle.std.specs.Prelude.{◌≡◌, ◌-◌, ℕ, List, Option};
ghost use Rattle.std.specs.Io.{ReadsAtMost, WritesAtMost};
ghost use Rattle.std.specs.Io.KnownBytes.{ReadConsumes, WriteAppends};
ghost use Rattle.http_wire.specs.Device.{Counts, TakesSome};

use std::io::{Read, Write};

/// A read or a write that failed.
#[derive(Clone, Copy, Debug, PartialEq, Eq)]
pub struct DeviceFailed;

/// A reader whose bytes contracts can name, and which counts its failures.
pub trait Source {
    // The bytes that reads will give from here on, if they are known.
    ghost left: { Self → Option (List ℕ) };

    // How many reads have failed.
    ghost read_failures: { Self → ℕ };

    /// Reads some bytes into the front of the room, and answers how many: 0 only at the end, or if there is no room.
    fn read(&mut self, room: &mut [u8]) -> Result<usize, DeviceFailed>
        ensures bound { ReadsAtMost result room.new }
        ensures bytes { ReadConsumes (left self.old) (left self.new) result room.new }
        ensures failures { Counts (read_failures self.old) (read_failures self.new) result };

    /// When the last read ended, in milliseconds since 1970-01-01T00:00:00Z by the clock of the system; 0 if the reader
    /// looks at no clock. No clause says that the clock is right.
    fn moment(&self) -> u64 {
        0
    }
}

/// A writer whose bytes contracts can name, and which counts its failures.
pub trait Sink {
    // The bytes that were written, if they are known.
    ghost written: { Self → Option (List ℕ) };

    // How many writes have failed.
    ghost write_failures: { Self → ℕ };

    /// Writes some bytes of the text from its front, and answers how many: 0 only if the text is empty.
    fn write(&mut self, text: &[u8]) -> Result<usize, DeviceFailed>
        ensures bound { WritesAtMost result text.now }
        ensures some { TakesSome result text.now }
        ensures bytes { WriteAppends (written self.old) (written self.new) result text.now }
        ensures failures { Counts (write_failures self.old) (write_failures self.new) result };
}

/// A reader or a writer of the standard library. A call of it that fails is counted, also one that
/// was interrupted, and so is a write that takes nothing of a text. The count stops at 2^64 - 1.
#[derive(Drop)]
pub struct Device<T> {
    inner: T,
    failures: u64,
}

impl<T> Device<T> {
    ghost use Rattle.http_wire.specs.Devices.{device_inner, device_failures};

    /// The reader or writer, without failures so far.
    pub fn new(inner: T) -> Device<T>
        ensures inner { device_inner result ≡ inner }
        ensures failures { device_failures result ≡ 0 }
    {
        Device { inner, failures: 0 }
    }
}

impl<T: Read> Source for Device<T> {
    ghost use Rattle.http_wire.specs.Devices.{device_inner, device_failures};

    ghost left = { λ d. T.remaining (device_inner d) };

    ghost read_failures = { device_failures };

    fn read(&mut self, room: &mut [u8]) -> Result<usize, DeviceFailed> {
        match self.inner.read(room) {
            Ok(count) => Ok(count),
            Err(_) => {
                self.failures = self.failures.saturating_add(1);
                Err(DeviceFailed)
            }
        }
    }
}

impl<T: Write> Sink for Device<T> {
    ghost use Rattle.http_wire.specs.Devices.{device_inner, device_failures};

    ghost written = { λ d. T.contents (device_inner d) };

    ghost write_failures = { device_failures };

    fn write(&mut self, text: &[u8]) -> Result<usize, DeviceFailed> {
        match self.inner.write(text) {
            Ok(count) if count > 0 || text.is_empty() => Ok(count),
            _ => {
                self.failures = self.failures.saturating_add(1);
                Err(DeviceFailed)
            }
        }
    }
}
