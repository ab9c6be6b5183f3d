//! What standard error has of a register that serves a port.

ghost use Rattle.std.specs.Prelude.{None};

use crate::fault::NotDone;
use crate::log_message::LogMessage;
use crate::options::Serving;
use crate::pause::Pause;
use intake_process::{Closed, Observer, Totals, Went};
use std::io::Write;
use std::time::Instant;

/// Reports what fails while a register serves the connections of a port, and that the register is full. It leaves a
/// register alone for a while that failed again.
#[derive(Drop)]
pub(crate) struct Reporter<'r, 'a, 'o, E> {
    rt: &'r HostRuntime,
    serving: Serving<'a>,
    errors: &'o mut E,
    /// When the opening of the register began; `None` if the system has no clock.
    start: Option<Instant>,
    /// Whether it was reported that the register is full.
    is_full: bool,
    /// How many requests the register kept when it was opened again; `None` before that.
    kept: Option<u64>,
    /// How long the register is left alone once it is closed.
    pause: Pause,
}

impl<'r, 'a, 'o, E: Write> Reporter<'r, 'a, 'o, E> {
    /// A reporter on this standard error. The opening of the register begins now.
    pub(crate) fn new(
        rt: &'r HostRuntime,
        serving: Serving<'a>,
        errors: &'o mut E,
    ) -> Reporter<'r, 'a, 'o, E> {
        Reporter {
            rt,
            serving,
            errors,
            start: Instant::now(rt).ok(),
            is_full: false,
            kept: None,
            pause: Pause::none(),
        }
    }

    /// Reports that all connections were served.
    pub(crate) fn tell_served(&mut self) {
        let connections = self.serving.connections;
        LogMessage::Served { connections }.tell(self.errors);
    }

    /// How long the opening took so far, in milliseconds; 0 if the system has no clock.
    fn milliseconds(&self) -> u128 {
        let Some(start) = self.start else {
            return 0;
        };
        match start.elapsed(self.rt) {
            Ok(time) => time.as_millis(),
            Err(_) => 0,
        }
    }

    /// Reports that the register is full, if it keeps so many requests that it is, and that is not reported yet.
    fn tell_full(&mut self, kept: u64) {
        let limit = self.serving.limit;
        if kept >= limit && !self.is_full {
            self.is_full = true;
            LogMessage::Full { limit }.tell(self.errors);
        }
    }

    /// The database refused a call, and the register, which keeps so many requests, is closed. One that kept a request
    /// since it was opened failed for the first time.
    fn tell_down(&mut self, kept: u64) {
        LogMessage::Down.tell(self.errors);
        match self.kept {
            Some(before) if kept <= before => self.leave_alone(),
            _ => self.pause = Pause::none(),
        }
    }

    /// Leaves a register alone that failed again, for longer than before.
    fn leave_alone(&mut self) {
        self.pause = self.pause.longer(self.rt);
        let seconds = self.pause.seconds();
        LogMessage::Paused { seconds }.tell(self.errors);
    }
}

impl<E: Write> Observer for Reporter<'_, '_, '_, E> {
    ghost answers = { λ _. None };

    fn ready(&mut self, totals: Totals) {
        LogMessage::Ready {
            address: self.serving.address,
            kept: totals.kept,
            filings: totals.filings,
            milliseconds: self.milliseconds(),
        }
        .tell(self.errors);
    }

    fn may_open(&mut self) -> bool {
        self.pause.is_over(self.rt)
    }

    fn opened(&mut self, totals: Totals) {
        LogMessage::OpenAgain.tell(self.errors);
        self.kept = Some(totals.kept);
    }

    fn ended(&mut self, went: Went) {
        match went {
            Went::Served { kept } => self.tell_full(kept),
            Went::Failed(closed) => self.tell_down(closed.kept),
            Went::TurnedAway => {}
            Went::NotOpened(_) => self.leave_alone(),
        }
    }

    fn closed(&mut self, closed: Closed) {
        // A close that failed only warns: what was answered is kept, and is not to be filed again.
        if let Err(error) = closed.outcome {
            NotDone::not_closed(self.serving.database, error).tell(self.errors);
        }
    }
}
