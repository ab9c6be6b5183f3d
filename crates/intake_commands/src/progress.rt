//! How far the check of a register is.

use intake_process::CheckProgress;
use register_store::Watch;
use std::io::{IsTerminal, Write};

/// Fewer requests are checked in a moment, so nothing is shown.
const MANY: u64 = 10_000;

/// Shows on standard error how far the check of many requests is, a hundred times at most, if that is a terminal.
#[derive(Drop)]
pub(crate) struct TerminalProgress<'a> {
    rt: &'a HostRuntime,
    has_told: bool,
}

impl<'a> TerminalProgress<'a> {
    pub(crate) fn new(rt: &'a HostRuntime) -> TerminalProgress<'a> {
        TerminalProgress {
            rt,
            has_told: false,
        }
    }
}

impl Watch for TerminalProgress<'_> {
    fn passed(&mut self, requests: u64, all: u64) {
        if all >= MANY && requests.is_multiple_of(all / 100) && self.rt.stderr().is_terminal() {
            self.has_told = true;
            let _ = write!(
                self.rt.stderr(),
                "\rintake: {requests} of {all} requests are sound"
            );
        }
    }
}

impl CheckProgress for TerminalProgress<'_> {
    /// Ends the line, if there is one.
    fn end(&mut self) {
        if self.has_told {
            // Nothing is left to be done if this can't be written.
            let _ = writeln!(self.rt.stderr());
        }
    }
}
