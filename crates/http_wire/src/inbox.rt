//! The requests of a connection, which are read one after another.
ghost use Rattle.std.specs.Prelude.{◌≡◌, ◌||◌, Some, IsSome, IfOk, is_some, true, false};
ghost use Rattle.http_connection.specs.Connection.{has_head, has_ended, is_over as is_closed, lent};

use crate::device::{Sink, Source};
use crate::reading::Reading;
use http_connection::Request;
use http_messages::{ConnFault, Refusal};
use std::alloc::{AllocError, Global};

/// A connection that is read, up to the request that stands first in what was read and not yet answered. Each call is
/// given the reader and the writer, which stay the same over the whole connection.
#[derive(Drop)]
pub struct Inbox {
    reading: Reading,
    has_failed: bool,
    ghost settled: { is_closed reading.connection ≡ false → has_head reading.connection ≡ true
        → is_some (lent reading.connection) ≡ true },
    ghost goes_on: { is_closed reading.connection ≡ false → has_ended reading.connection ≡ false },
    ghost shut: { has_failed ≡ true → is_closed reading.connection ≡ true },
}

/// What stands next on a connection.
#[derive(Clone, Copy, Debug, PartialEq, Eq)]
pub enum Next {
    /// A whole request.
    Message,
    /// What no request can follow.
    Refuse(Refusal),
    /// Nothing: the input ended, or the connection was closed.
    End,
}

impl Inbox {
    ghost use Rattle.http_wire.specs.Inbox.{held, unread, lent_request, is_over, is_failed, reads, IsNew, KeepsBytes};
    ghost use Rattle.http_wire.specs.ReadingOn.{FindsNext};

    /// An inbox for a connection of which nothing was read. It takes memory for 16,384 bytes at once,
    /// and later for as many as the longest request needs, 1,064,962 at most.
    pub fn new(alloc: Global) -> Result<Inbox, AllocError>
        ensures { IfOk result IsNew }
    {
        Ok(Inbox {
            reading: Reading::new(alloc)?,
            has_failed: false,
        })
    }

    /// Lets the request go that was lent, and reads on to the next request or refusal. The bytes after it stay for the
    /// next call. The interim response is written if a head asks for it (RFC 9110, section 10.1.1). After a request
    /// that closes, a refusal, the end of the input or a fault every call answers `End`, and neither reads nor writes.
    pub fn next<R: Source, W: Sink>(
        &mut self,
        reader: &mut R,
        writer: &mut W,
    ) -> Result<Next, ConnFault>
        ensures { FindsNext R.Source W.Sink reader.old reader.new writer.old writer.new self.old self.new result }
    {
        self.drop_message();
        if self.reading.connection.is_over() {
            return Ok(Next::End);
        }
        match self.reading.next_arrival(reader, writer) {
            Ok(Next::Message) => Ok(Next::Message),
            Ok(Next::Refuse(refusal)) => {
                self.reading.connection.close();
                Ok(Next::Refuse(refusal))
            }
            Ok(Next::End) => {
                self.reading.connection.close();
                Ok(Next::End)
            }
            Err(fault) => {
                self.reading.connection.close();
                self.has_failed = true;
                Err(fault)
            }
        }
    }

    /// The request that `next` found last, if it answered `Message`.
    pub fn message(&self) -> Request<'_>
        requires { IsSome (lent_request self.now) }
        ensures { lent_request self.now ≡ Some (record { head = result.head; body = result.body.now }) }
    {
        self.reading.connection.request()
    }

    /// Whether a call failed.
    pub(crate) fn has_failed(&self) -> bool
        ensures { result ≡ is_failed self.now }
    {
        self.has_failed
    }

    /// The allocator of the bytes.
    pub(crate) fn alloc(&self) -> Global {
        self.reading.connection.alloc()
    }

    /// Takes note of a reply: no request follows one that closes, or that failed.
    pub(crate) fn close_after(&mut self, closes: bool, fails: bool)
        ensures bytes { KeepsBytes self.old self.new }
        ensures over { is_over self.new ≡ ((closes || fails) || is_over self.old) }
        ensures failed { is_failed self.new ≡ (is_failed self.old || fails) }
    {
        if closes || fails {
            self.reading.connection.close();
        }
        self.has_failed |= fails;
    }

    /// Drops the request that was lent.
    fn drop_message(&mut self)
        ensures held { held self.new ≡ unread self.old }
        ensures count { reads self.new ≡ reads self.old }
        ensures none { is_closed self.new.reading.connection ≡ false → has_head self.new.reading.connection ≡ false }
        ensures over { is_closed self.new.reading.connection ≡ is_over self.old }
        ensures failed { is_failed self.new ≡ is_failed self.old }
    {
        if self.reading.connection.lends() {
            self.reading.connection.finish();
        }
    }
}
