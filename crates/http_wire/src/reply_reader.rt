//! Reading one reply (RFC 9110 and RFC 9112): interim responses are skipped, and the final one is read
//! with its content.
ghost use Rattle.std.specs.Prelude.{◌≡◌, ◌<◌, ◌≤◌, length, IfOk, IfErr, OnOk};
ghost use Rattle.http_wire.specs.Received.{held_bytes, read_count};
ghost use Rattle.http_messages.specs.Replies.{reply_parts};
ghost use Rattle.http_wire.specs.ReplyFaults.{HasGiven, IsReplyFailure};
ghost use Rattle.http_wire.specs.ReplyReading.{Takes, TakesHead, IsHeadFailure, IsContentFailure};
ghost use Rattle.http_messages.specs.Response.{GivesReply, is_interim};

use crate::device::Source;
use crate::received::Received;
use http_messages::{Block, Reply, ReplyFault, ResponseHead, read_response, skipped_len};
use std::alloc::Global;

/// Reads one reply, after any interim responses (RFC 9110, section 15.2). The reader may go beyond its
/// end, since the connection is closed after a reply. The faults come in this order: `TooLarge` and
/// `Malformed` for each head; then for the final one `Malformed` for a Transfer-Encoding or an invalid
/// Content-Length, `NoLength`, and `TooLarge` for its content. `Cut` comes only at the end of the input.
pub fn read_reply<R: Source>(alloc: Global, reader: &mut R) -> Result<Reply, ReplyFault>
    ensures ok { IfOk result (λ reply.
        HasGiven (R.left reader.old) (R.left reader.new) (λ bytes. GivesReply bytes (reply_parts reply))) }
    ensures fine { OnOk result (R.read_failures reader.new ≡ R.read_failures reader.old) }
    ensures fault { IfErr result (IsReplyFailure (R.left reader.old) (R.left reader.new) (R.read_failures reader.old)
        (R.read_failures reader.new)) }
{
    let mut received = Received::new(alloc)?;
    loop {
        let head = take_head(&mut received, reader)?;
        if !is_interim(head.status) {
            let content = take_content(alloc, &mut received, reader, head.content_len?)?;
            return Ok(Reply {
                status: head.status,
                content,
                kind: head.kind,
            });
        }
    }
}

/// Whether a response of this status comes before the final one.
fn is_interim(status: u16) -> bool
    ensures { result ≡ is_interim status }
{
    (100..=199).contains(&status)
}

/// Reads on to the end of the first head, and takes it off the bytes that are held.
fn take_head<R: Source>(received: &mut Received, reader: &mut R) -> Result<ResponseHead, ReplyFault>
    ensures head { IfOk result (TakesHead (R.left reader.old) (R.left reader.new) received.old received.new) }
    ensures reads { OnOk result (read_count received.old ≤ read_count received.new) }
    ensures less { OnOk result (read_count received.new ≡ read_count received.old
        → length (held_bytes received.new) < length (held_bytes received.old)) }
    ensures fine { OnOk result (R.read_failures reader.new ≡ R.read_failures reader.old) }
    ensures fault { IfErr result (IsHeadFailure (R.left reader.old) (R.left reader.new) (R.read_failures reader.old)
        (R.read_failures reader.new) received.old received.new) }
{
    let end = match received.read_block(reader)? {
        Block::End(end) => end,
        Block::TooLong => return Err(ReplyFault::TooLarge),
        Block::More => return Err(ReplyFault::Cut),
    };
    let bytes = received.bytes();
    match read_response(&bytes[skipped_len(bytes)..end]) {
        Some(head) => {
            received.drop_front(end);
            Ok(head)
        }
        None => Err(ReplyFault::Malformed),
    }
}

/// Takes so many bytes off those that are held, and reads more as long as they don't suffice.
fn take_content<R: Source>(
    alloc: Global,
    received: &mut Received,
    reader: &mut R,
    len: usize,
) -> Result<Vec<u8>, ReplyFault>
    ensures content { IfOk result (λ content.
        Takes (R.left reader.old) (R.left reader.new) received.old received.new content.items
        × (length content.items ≡ len)) }
    ensures fine { OnOk result (R.read_failures reader.new ≡ R.read_failures reader.old) }
    ensures fault { IfErr result (IsContentFailure (R.left reader.old) (R.left reader.new) (R.read_failures reader.old)
        (R.read_failures reader.new) received.old received.new len) }
{
    let mut content = Vec::new(alloc);
    loop {
        let held = received.bytes();
        let count = held.len().min(len - content.len());
        content.extend_from_slice(&held[..count])?;
        received.drop_front(count);
        if content.len() == len {
            return Ok(content);
        }
        if !received.read_more(reader)? {
            return Err(ReplyFault::Cut);
        }
    }
}
