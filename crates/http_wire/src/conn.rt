//! A connection: a reader, a writer and the requests that come between them.
ghost use Rattle.std.specs.Prelude.{◌≡◌, IsSome, Some, IfOk};
ghost use Rattle.http_wire.specs.Inbox.{lent_request, IsNew};
ghost use Rattle.http_wire.specs.ReadingOn.{FindsNext};
ghost use Rattle.http_messages.specs.Replies.{reply_parts};
ghost use Rattle.http_messages.specs.Reply.{phrase};

use crate::device::{Sink, Source};
use crate::inbox::{Inbox, Next};
use crate::write::write_reply;
use http_connection::Request;
use http_messages::{ConnFault, Reply};
use std::alloc::{AllocError, Global};

/// One connection: what its reader gives is read by `next` alone, and what its writer takes is
/// written by `next` and `reply` alone.
#[derive(Drop)]
pub struct Conn<R, W> {
    reader: R,
    writer: W,
    inbox: Inbox,
}

impl<R: Source + Drop, W: Sink + Drop> Conn<R, W> {
    ghost use Rattle.http_wire.specs.Conn.{conn_reader, conn_writer, conn_inbox, WritesReply};

    /// A connection of which nothing was read or written.
    pub fn new(alloc: Global, reader: R, writer: W) -> Result<Conn<R, W>, AllocError>
        ensures { IfOk result (λ c. IsNew (conn_inbox c) × (conn_reader c ≡ reader) × (conn_writer c ≡ writer)) }
    {
        Ok(Conn {
            reader,
            writer,
            inbox: Inbox::new(alloc)?,
        })
    }

    /// Reads on to the next request or refusal, as `Inbox::next` does.
    pub fn next(&mut self) -> Result<Next, ConnFault>
        ensures { FindsNext R.Source W.Sink (conn_reader self.old) (conn_reader self.new) (conn_writer self.old)
            (conn_writer self.new) (conn_inbox self.old) (conn_inbox self.new) result }
    {
        self.inbox.next(&mut self.reader, &mut self.writer)
    }

    /// The request that `next` found last, if it answered `Message`.
    pub fn message(&self) -> Request<'_>
        requires { IsSome (lent_request (conn_inbox self.now)) }
        ensures { lent_request (conn_inbox self.now) ≡ Some (record { head = result.head; body = result.body.now }) }
    {
        self.inbox.message()
    }

    /// Writes the reply, and closes the connection after it if that is asked for. The request that is lent stays lent.
    /// After a fault, also one of `next`, nothing is written any more.
    pub fn reply(&mut self, reply: &Reply, close: bool) -> Result<(), ConnFault>
        requires { IsSome (phrase reply.now.status) }
        ensures { WritesReply W.Sink self.old self.new (reply_parts reply.now) close result }
    {
        if self.inbox.has_failed() {
            return Err(ConnFault::Write { sent: 0 });
        }
        let result = write_reply(self.inbox.alloc(), &mut self.writer, reply, close);
        self.inbox.close_after(close, result.is_err());
        result
    }
}
