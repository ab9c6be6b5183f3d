//! Turns a connection away, since the register is closed.

ghost use Rattle.std.specs.Prelude.{◌≡◌, ◌≤◌, [], true, vec_capacity, IfOk, IfErr, OnOk, if◌then◌else◌};
ghost use Rattle.http_messages.specs.Reply.{render};
ghost use Rattle.http_wire.specs.Inbox.{IsNew};
ghost use Rattle.http_wire.specs.Wire.{wire};
ghost use Rattle.filing_model.specs.Reply.{unavailable};
ghost use Rattle.gateway_server.specs.Answered.{WritesText, IsReplyFault};
ghost use Rattle.gateway_rounds.specs.Away.{closing_reply};
ghost use Rattle.intake_process.specs.Turning.{TurnsAway, end_by};

use gateway_requests::is_head;
use gateway_server::{Ended, Mark, Served};
use http_wire::{ConnFault, Inbox, Kind, Next, Reply, Sink, Source, write_reply};
use intake_core::word_reply;
use std::alloc::{AllocError, Global};

/// The content of a reply that says that there is no register. A reply to HEAD has none (RFC 9110, section 9.3.2).
fn content(alloc: Global, is_head: bool) -> Result<Vec<u8>, AllocError>
    ensures { IfOk result (λ content. content.items ≡ (if is_head then [] else unavailable.content)) }
{
    if is_head {
        Ok(Vec::new(alloc))
    } else {
        Ok(word_reply(alloc, 503, "unavailable")?.content)
    }
}

/// Writes that there is no register, and closes the connection.
#[tactic(auto, unfolding(http_messages::specs::Reply::phrase))]
fn write_unavailable<W: Sink>(alloc: Global, writer: &mut W, is_head: bool) -> Result<(), ConnFault>
    ensures written { WritesText (W.written writer.old) (W.written writer.new)
        (render (closing_reply is_head) true) result }
    ensures fine { OnOk result (W.write_failures writer.new ≡ W.write_failures writer.old) }
    ensures fault { IfErr result (IsReplyFault (W.write_failures writer.old) (W.write_failures writer.new)) }
{
    let reply = Reply {
        status: 503,
        content: content(alloc, is_head)?,
        kind: Kind::Problem,
    };
    write_reply(alloc, writer, &reply, true)
}

/// How a connection ended whose last reply was written like this.
fn end_by(written: Result<(), ConnFault>) -> Ended
    ensures { result ≡ end_by written }
{
    match written {
        Ok(()) => Ended::Closed,
        Err(fault) => Ended::Fault(fault),
    }
}

/// Answers the first request of a connection that there is no register, and closes the connection. If memory runs out,
/// nothing is read.
pub fn turn_away<R: Source, W: Sink>(alloc: Global, reader: &mut R, writer: &mut W) -> Served
    ensures { TurnsAway (wire R.Source W.Sink reader.old writer.old) (wire R.Source W.Sink reader.new writer.new)
        result }
{
    match begin(alloc) {
        Ok((inbox, marks)) => turn_next(alloc, inbox, marks, reader, writer),
        Err(_) => Served {
            marks: Vec::new(alloc),
            ended: Ended::Fault(ConnFault::Memory),
        },
    }
}

/// An inbox of a connection, and room for one mark.
fn begin(alloc: Global) -> Result<(Inbox, Vec<Mark>), AllocError>
    ensures { IfOk result (λ begun. IsNew begun.0 × (begun.1.items ≡ []) × (1 ≤ vec_capacity begun.1)) }
{
    let inbox = Inbox::new(alloc)?;
    let mut marks = Vec::new(alloc);
    marks.reserve(1)?;
    Ok((inbox, marks))
}

/// Answers what comes first.
fn turn_next<R: Source, W: Sink>(
    alloc: Global,
    mut inbox: Inbox,
    mut marks: Vec<Mark>,
    reader: &mut R,
    writer: &mut W,
) -> Served
    requires new { IsNew inbox }
    requires none { marks.items ≡ [] }
    requires room { 1 ≤ vec_capacity marks }
    ensures { TurnsAway (wire R.Source W.Sink reader.old writer.old) (wire R.Source W.Sink reader.new writer.new)
        result }
{
    match inbox.next(reader, writer) {
        Ok(Next::Message) => {
            marks.push_reserved(Mark::Unavailable);
            let written = write_unavailable(alloc, writer, is_head(&inbox.message()));
            Served {
                marks,
                ended: end_by(written),
            }
        }
        Ok(Next::Refuse(_)) => {
            marks.push_reserved(Mark::NotFiled);
            let written = write_unavailable(alloc, writer, false);
            Served {
                marks,
                ended: end_by(written),
            }
        }
        Ok(Next::End) => Served {
            marks,
            ended: Ended::InputEnded,
        },
        Err(fault) => Served {
            marks,
            ended: Ended::Fault(fault),
        },
    }
}
