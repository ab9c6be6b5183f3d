//! A reader that looks at the clock.

use http_wire::{DeviceFailed, Source};
use system_sockets::moment_now;

/// A reader that looks at the clock of the system after each read.
#[derive(Drop)]
pub(crate) struct Clocked<'r, R> {
    rt: &'r HostRuntime,
    inner: R,
    /// When the last read ended, in milliseconds since 1970-01-01T00:00:00Z.
    moment: u64,
}

impl<'r, R> Clocked<'r, R> {
    /// This reader, of which nothing was read yet.
    pub(crate) fn new(rt: &'r HostRuntime, inner: R) -> Clocked<'r, R> {
        Clocked {
            rt,
            inner,
            moment: 0,
        }
    }
}

impl<R: Source> Source for Clocked<'_, R> {
    ghost left = { λ reader. R.left reader.inner };

    ghost read_failures = { λ reader. R.read_failures reader.inner };

    fn read(&mut self, room: &mut [u8]) -> Result<usize, DeviceFailed> {
        let got = self.inner.read(room);
        self.moment = moment_now(self.rt);
        got
    }

    fn moment(&self) -> u64 {
        self.moment
    }
}
