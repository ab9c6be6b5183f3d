//! How long a register that failed is left alone.

use std::time::{Clock, Instant};

/// The first pause and the longest one, in seconds.
const FIRST: u64 = 1;

const LONGEST: u64 = 60;

/// How long a register that failed is left alone before it is read again: not at all after the first failure, and after
/// each one more twice as long as before, from a second to a minute. On a full disk it opens, which reads it whole
/// while everybody waits, and then refuses the next new report.
#[derive(Clone, Copy)]
pub(crate) struct Pause {
    seconds: u64,
    /// `None` if the clock could not be read: then the pause is over.
    start: Option<Instant>,
}

impl Pause {
    /// The pause after a first failure.
    pub(crate) fn none() -> Pause {
        Pause {
            seconds: 0,
            start: None,
        }
    }

    /// The pause after one failure more, from now on.
    pub(crate) fn longer<C: Clock>(self, clock: &C) -> Pause {
        Pause {
            seconds: self.seconds.saturating_mul(2).max(FIRST).min(LONGEST),
            start: Instant::now(clock).ok(),
        }
    }

    pub(crate) fn seconds(self) -> u64 {
        self.seconds
    }

    /// Whether the pause is over.
    pub(crate) fn is_over<C: Clock>(self, clock: &C) -> bool {
        let Some(start) = self.start else {
            return true;
        };
        match start.elapsed(clock) {
            Ok(time) => time.as_secs() >= self.seconds,
            Err(_) => true,
        }
    }
}
