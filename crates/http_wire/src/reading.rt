//! A connection that is read from a reader, up to its next arrival, and the interim response between a head and its
//! body (RFC 9110, section 10.1.1).
ghost use Rattle.std.specs.Prelude.{◌≡◌, ◌&&◌, ◌<◌, ◌≤◌, not, length, false, IfOk, IfErr, OnOk, OnErr};
ghost use Rattle.std.specs.Io.KnownBytes.{Appends, IsAtEnd};
ghost use Rattle.http_connection.specs.Connection.{KeepsState, IsNew, held, memory, has_head, has_ended, is_over};
ghost use Rattle.http_connection.specs.Connection.{IsSound};
ghost use Rattle.http_wire.specs.Calls.{interim_if, IsSendFault};
ghost use Rattle.http_wire.specs.Received.{ReadsFrom};

use crate::device::{Sink, Source};
use crate::inbox::Next;
use crate::read::{CHUNK, MAX_READS, read_into};
use crate::write::write_all;
use http_connection::{Connection, Event, MAX_HELD};
use http_messages::ConnFault;
use std::alloc::{AllocError, Global};

/// `100 Continue` and an empty line (RFC 9110, section 15.2.1).
const INTERIM: &[u8] = b"HTTP/1.1 100 Continue\r\n\r\n";

/// A connection, and how many reads gave it bytes.
#[derive(Drop)]
pub(crate) struct Reading {
    pub(crate) connection: Connection,
    pub(crate) reads: u32,
    ghost counted: { reads ≤ 4194304 },
}

impl Reading {
    ghost use Rattle.http_wire.specs.Reading.{reading, IsRead, FindsArrival};

    /// A connection of which nothing was read, with memory for a first read.
    pub(crate) fn new(alloc: Global) -> Result<Reading, AllocError>
        ensures is_new { IfOk result (λ r. IsNew r.connection) }
        ensures memory { IfOk result (λ r. memory r.connection ≡ 16384) }
        ensures count { IfOk result (λ r. r.reads ≡ 0) }
    {
        Ok(Reading {
            connection: Connection::with_room(alloc, CHUNK)?,
            reads: 0,
        })
    }

    /// Reads on to the end of the first request or refusal, and no further than the reader goes with the read that
    /// completes it.
    pub(crate) fn next_arrival<R: Source, W: Sink>(
        &mut self,
        reader: &mut R,
        writer: &mut W,
    ) -> Result<Next, ConnFault>
        requires open { is_over self.old.connection ≡ false }
        requires goes_on { has_ended self.old.connection ≡ false }
        requires none { has_head self.old.connection ≡ false }
        ensures { FindsArrival R.Source W.Sink reader.old reader.new writer.old writer.new self.old self.new result }
    {
        let mut is_sent = false;
        loop {
            match self.connection.next_event()? {
                Event::NeedData { awaits } => {
                    send_interim(writer, awaits, is_sent)?;
                    is_sent = awaits;
                    self.read(reader)?;
                }
                Event::Request => {
                    send_interim(writer, self.connection.awaits(), is_sent)?;
                    return Ok(Next::Message);
                }
                Event::Refused(refusal) => return Ok(Next::Refuse(refusal)),
                Event::ConnectionClosed => return Ok(Next::End),
            }
        }
    }

    /// Makes one read. Only a read that gave bytes is counted; one that gave none says that the input has ended.
    fn read<R: Source>(&mut self, reader: &mut R) -> Result<(), ConnFault>
        requires { length (held self.old.connection) < MAX_HELD }
        ensures reads { ReadsFrom R.Source reader.old reader.new (reading self.old) (reading self.new) result }
        ensures read { OnOk result (IsRead (R.left reader.new) self.old self.new) }
        ensures same { OnErr result (KeepsState self.old.connection self.new.connection) }
        ensures sound { IsSound self.old.connection → IsSound self.new.connection }
    {
        if self.reads == MAX_READS {
            return Err(ConnFault::ReadLimit);
        }
        let mut room = [0; CHUNK];
        let most = CHUNK.min(MAX_HELD - self.connection.len());
        self.connection.reserve(most)?;
        let count = read_into(reader, &mut room[..most])?;
        if count == 0 {
            self.connection.receive_end();
            return Ok(());
        }
        self.connection.receive_reserved(&room[..count]);
        self.reads += 1;
        Ok(())
    }
}

/// Writes the interim response if a head asks for it, unless it went already.
fn send_interim<W: Sink>(writer: &mut W, awaits: bool, is_sent: bool) -> Result<(), ConnFault>
    ensures ok { OnOk result
        (Appends (W.written writer.old) (W.written writer.new) (interim_if (awaits && not is_sent))) }
    ensures fine { OnOk result (W.write_failures writer.new ≡ W.write_failures writer.old) }
    ensures fault { IfErr result (IsSendFault W.Sink writer.old writer.new (awaits && not is_sent)) }
{
    if awaits && !is_sent {
        write_all(writer, INTERIM).map_err(|sent| ConnFault::Write { sent })?;
    }
    Ok(())
}
