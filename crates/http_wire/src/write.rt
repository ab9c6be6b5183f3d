//! Texts and replies, written whole.
ghost use Rattle.std.specs.Prelude.{◌≡◌, ◌≤◌, take, length, IsSome, IfErr, OnOk};
ghost use Rattle.std.specs.Io.KnownBytes.{Appends};
ghost use Rattle.http_wire.specs.Device.{HasFailed};
ghost use Rattle.http_messages.specs.Replies.{reply_parts};
ghost use Rattle.http_messages.specs.Reply.{phrase, render};
ghost use Rattle.http_wire.specs.Write.{IsWriteFault};

use crate::device::Sink;
use http_messages::{ConnFault, Reply, reply_text};
use std::alloc::Global;

/// Writes the whole text, in as many writes as it takes. An `Err` has the number of bytes that were
/// written before the writer failed.
pub fn write_all<W: Sink>(writer: &mut W, text: &[u8]) -> Result<(), usize>
    ensures ok { OnOk result (Appends (W.written writer.old) (W.written writer.new) text.now) }
    ensures err { IfErr result (λ sent. Appends (W.written writer.old) (W.written writer.new) (take sent text.now)) }
    ensures sent { IfErr result (λ sent. sent ≤ length text.now) }
    ensures fine { OnOk result (W.write_failures writer.new ≡ W.write_failures writer.old) }
    ensures failed { IfErr result (λ _. HasFailed (W.write_failures writer.old) (W.write_failures writer.new)) }
{
    let mut sent = 0;
    while sent < text.len() {
        match writer.write(&text[sent..]) {
            Ok(count) => sent += count,
            Err(_) => return Err(sent),
        }
    }
    Ok(())
}

/// Writes the bytes of a reply. If there is no memory for them, nothing is written.
pub fn write_reply<W: Sink>(
    alloc: Global,
    writer: &mut W,
    reply: &Reply,
    close: bool,
) -> Result<(), ConnFault>
    requires { IsSome (phrase reply.now.status) }
    ensures ok { OnOk result
        (Appends (W.written writer.old) (W.written writer.new) (render (reply_parts reply.now) close)) }
    ensures fine { OnOk result (W.write_failures writer.new ≡ W.write_failures writer.old) }
    ensures fault { IfErr result
        (IsWriteFault W.Sink writer.old writer.new (render (reply_parts reply.now) close)) }
{
    let text = reply_text(alloc, reply, close)?;
    write_all(writer, &text).map_err(|sent| ConnFault::Write { sent })
}
