//! What is noted of a connection until it is over.

ghost use Rattle.std.specs.Prelude.{◌≡◌, map, option_map, string_bytes};
ghost use Rattle.intake_commands.specs.Reported.{AddsFiler};

use crate::log_message::LogMessage;
use connection_hall::{Broken, Got, Stream, Why};
use gateway_rounds::Note;
use gateway_server::Ended;
use http_wire::ConnFault;
use std::alloc::Global;

/// How many filers a line of the log has at most, and how many statuses.
const MOST: usize = 64;

/// What is noted of a connection.
#[derive(Drop)]
pub(crate) struct Record {
    is_logged: bool,
    /// How many requests and refusals were answered.
    pub(crate) places: u64,
    /// The filers of the first requests that were filed.
    pub(crate) filers: Vec<String>,
    /// The statuses of the first final responses.
    pub(crate) statuses: Vec<u16>,
    /// Whether its last reply says that it closes.
    is_closed: bool,
    /// How many bytes were written since its last reply began, and whether the last write took less than it was given.
    sent: usize,
    is_stuck: bool,
}

impl Record {
    /// The record of a connection on which nothing came. Filers and statuses are noted only for the log.
    fn new(alloc: Global, is_logged: bool) -> Record {
        Record {
            is_logged,
            places: 0,
            filers: Vec::new(alloc),
            statuses: Vec::new(alloc),
            is_closed: false,
            sent: 0,
            is_stuck: false,
        }
    }

    /// Notes what was answered. If memory is short, its filer or its status is left out.
    fn add(&mut self, note: &Note)
        ensures filer { AddsFiler (option_map string_bytes note.now.filer)
            (map string_bytes self.old.filers.items) (map string_bytes self.new.filers.items) }
        ensures closed { self.new.is_closed ≡ note.now.closes }
    {
        self.places = self.places.saturating_add(1);
        self.is_closed = note.closes;
        self.sent = 0;
        if self.is_logged {
            self.add_filer(&note.filer);
            self.add_status(note.status);
        }
    }

    /// Notes the filer of a request, if it was filed, and the line has room for it.
    fn add_filer(&mut self, filer: &Option<String>)
        ensures filer { AddsFiler (option_map string_bytes filer.now) (map string_bytes self.old.filers.items)
            (map string_bytes self.new.filers.items) }
        ensures closed { self.new.is_closed ≡ self.old.is_closed }
    {
        let Some(filer) = filer else {
            return;
        };
        if self.filers.len() < MOST {
            if let Ok(filer) = filer.clone() {
                let _ = self.filers.push(filer);
            }
        }
    }

    /// Notes a status, if the line has room for it.
    fn add_status(&mut self, status: u16)
        ensures filers { self.new.filers ≡ self.old.filers }
        ensures closed { self.new.is_closed ≡ self.old.is_closed }
    {
        if self.statuses.len() < MOST {
            let _ = self.statuses.push(status);
        }
    }

    /// Notes what a write came to.
    fn wrote(&mut self, taken: Result<usize, Broken>, len: usize) {
        if let Ok(count) = taken {
            self.sent = self.sent.saturating_add(count);
            self.is_stuck = count < len;
        }
    }

    /// How the connection ended that is over for this reason.
    pub(crate) fn ended(&self, why: Why) -> Ended {
        let sent = self.sent;
        match why {
            Why::Done if self.is_closed => Ended::Closed,
            Why::Done => Ended::InputEnded,
            Why::Broken => Ended::Fault(ConnFault::Write { sent }),
            Why::Late if self.is_stuck => Ended::Fault(ConnFault::Write { sent }),
            Why::Late => Ended::Fault(ConnFault::Read),
            Why::NoMemory => Ended::Fault(ConnFault::Memory),
        }
    }

    /// The fault in which the connection of this number ended that is over for this reason, if it did. So many seconds
    /// were its patience.
    pub(crate) fn fault(
        &self,
        connection: u32,
        why: Why,
        patience: Option<u32>,
    ) -> Option<LogMessage<'static>> {
        let Ended::Fault(fault) = self.ended(why) else {
            return None;
        };
        match (why, patience) {
            (Why::Late, Some(seconds)) => Some(LogMessage::Late {
                connection,
                seconds,
            }),
            _ => Some(LogMessage::Failed { connection, fault }),
        }
    }
}

/// A stream with what is noted of its connection. So what serves the connection knows nothing of the log.
#[derive(Drop)]
pub(crate) struct Recorded<S> {
    pub(crate) inner: S,
    pub(crate) record: Record,
}

impl<S: Stream> Recorded<S> {
    /// The stream, on which nothing came.
    pub(crate) fn new(alloc: Global, inner: S, is_logged: bool) -> Recorded<S>
        ensures { result.inner ≡ inner }
    {
        Recorded {
            inner,
            record: Record::new(alloc, is_logged),
        }
    }
}

impl<S: Stream> Stream for Recorded<S> {
    type Note = Note;

    ghost place = { λ it. S.place it.inner };

    ghost came = { λ it. S.came it.inner };

    ghost went = { λ it. S.went it.inner };

    ghost is_idle = { λ it. S.is_idle it.inner };

    ghost is_ended = { λ it. S.is_ended it.inner };

    ghost is_stuck = { λ it. S.is_stuck it.inner };

    ghost is_broken = { λ it. S.is_broken it.inner };

    fn read(&mut self, room: &mut [u8]) -> Got {
        self.inner.read(room)
    }

    fn write(&mut self, text: &[u8]) -> Result<usize, Broken> {
        let taken = self.inner.write(text);
        self.record.wrote(taken, text.len());
        taken
    }

    fn note(&mut self, note: &Note) {
        self.record.add(note);
    }
}
