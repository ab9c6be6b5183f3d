//! The sockets of a port whose connections are numbered and reported.

ghost use Rattle.std.specs.Prelude.{◌≡◌, [], Some};
ghost use Rattle.intake_commands.specs.Reported.{traffic_of};

use crate::connection_line::ConnectionLine;
use crate::log_message::LogMessage;
use crate::record::{Record, Recorded};
use command_line::{CommandFault, show};
use connection_hall::{Sockets, Why};
use http_server::Log;
use std::alloc::Global;
use std::io::{self, Write};
use std::time::Duration;

/// For how many milliseconds no connection may be accepted before that is a fault of the port (own rule).
const MOST_REFUSING: u64 = 60_000;

/// Sockets whose connections are reported by their numbers. If a connection ends in a fault, that is reported on the
/// errors. If there is a log, each connection has a line there once it is over. An accept that fails is reported once
/// and tried again, for up to a minute.
#[derive(Drop)]
pub(crate) struct ReportedSockets<K: Sockets, O, E> {
    alloc: Global,
    sockets: K,
    log: Option<O>,
    errors: E,
    /// For how many seconds a peer is waited for; no limit if none is given.
    patience: Option<u32>,
    /// One for each connection that came, and those that are over, which only clauses read: no memory holds them.
    came: Log<bool, bool>,
    over: Log<Recorded<K::Stream>, (u32, Why)>,
    /// Since when each accept failed; `None` if the last one did not.
    refusing: Option<u64>,
}

impl<K: Sockets, O: Write, E: Write> ReportedSockets<K, O, E> {
    /// These sockets, on which no connection came yet.
    pub(crate) fn new(
        alloc: Global,
        sockets: K,
        log: Option<O>,
        errors: E,
        patience: Option<u32>,
    ) -> ReportedSockets<K, O, E>
        ensures came { result.came.items ≡ [] }
        ensures over { result.over.items ≡ [] }
    {
        ReportedSockets {
            alloc,
            sockets,
            log,
            errors,
            patience,
            came: Log::new(),
            over: Log::new(),
            refusing: None,
        }
    }

    /// Reports the first of some accepts that failed one after another, and answers the error once they did for too
    /// long.
    fn refuse(&mut self, error: io::Error) -> io::Result<()>
        ensures sockets { self.new.sockets ≡ self.old.sockets }
        ensures came { self.new.came ≡ self.old.came }
        ensures over { self.new.over ≡ self.old.over }
    {
        let now = self.sockets.now();
        match self.refusing {
            Some(since) if now.saturating_sub(since) < MOST_REFUSING => Ok(()),
            Some(_) => Err(error),
            None => {
                self.refusing = Some(now);
                LogMessage::NotAccepted(error).tell(&mut self.errors);
                Ok(())
            }
        }
    }

    /// Reports the connection of this number, which is over. If its line is not printed, that is reported and nothing
    /// else of it.
    fn report(&mut self, number: u32, record: &Record, why: Why)
        ensures sockets { self.new.sockets ≡ self.old.sockets }
        ensures came { self.new.came ≡ self.old.came }
        ensures over { self.new.over ≡ self.old.over }
    {
        let fault = match self.show_line(number, record, why) {
            Ok(()) => record.fault(number, why, self.patience),
            Err(fault) => Some(LogMessage::NotLogged(fault)),
        };
        if let Some(fault) = fault {
            fault.tell(&mut self.errors);
        }
    }

    /// Prints the line of a connection, if there is a log.
    fn show_line(
        &mut self,
        number: u32,
        record: &Record,
        why: Why,
    ) -> Result<(), CommandFault<'static>>
        ensures sockets { self.new.sockets ≡ self.old.sockets }
        ensures came { self.new.came ≡ self.old.came }
        ensures over { self.new.over ≡ self.old.over }
    {
        let Some(log) = &mut self.log else {
            return Ok(());
        };
        let line = ConnectionLine {
            number,
            record,
            ended: record.ended(why),
        };
        let text = format!(in self.alloc; "{line}")?;
        // This waits while nobody reads: the kit has no other write to standard output.
        show(log, text.as_bytes())
    }
}

impl<K: Sockets, O: Write, E: Write> Sockets for ReportedSockets<K, O, E> {
    type Stream = Recorded<K::Stream>;

    ghost traffic = { λ it. Some (traffic_of it.came.items it.over.items) };

    ghost named = { λ it. K.named it.sockets };

    ghost clock = { λ it. K.clock it.sockets };

    fn listen(&mut self) -> io::Result<()> {
        self.sockets.listen()
    }

    fn accept(&mut self, place: usize) -> io::Result<Option<Recorded<K::Stream>>> {
        match self.sockets.accept(place) {
            Ok(Some(stream)) => {
                self.refusing = None;
                self.came = self.came.and(&true, &true);
                let is_logged = self.log.is_some();
                Ok(Some(Recorded::new(self.alloc, stream, is_logged)))
            }
            Ok(None) => {
                self.refusing = None;
                Ok(None)
            }
            Err(error) => {
                self.refuse(error)?;
                Ok(None)
            }
        }
    }

    fn ask(&mut self, wait: Duration) -> io::Result<()> {
        self.sockets.ask(wait)
    }

    fn named(&self) -> &[usize] {
        self.sockets.named()
    }

    fn now(&self) -> u64 {
        self.sockets.now()
    }

    fn moment(&self) -> u64 {
        self.sockets.moment()
    }

    fn end(&mut self, stream: Recorded<K::Stream>, number: u32, why: Why) {
        self.over = self.over.and(&stream, &(number, why));
        let Recorded { inner, record } = stream;
        // They are counted from 1 in the log.
        self.report(number.saturating_add(1), &record, why);
        self.sockets.end(inner, number, why);
    }
}
