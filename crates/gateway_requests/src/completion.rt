//! The requests that a connection completed, read again from its bytes.

ghost use Rattle.std.specs.Prelude.{◌≡◌, ◌≤◌, ◌++◌, ℕ, List, length, drop, None, IfOk, IfSome, OnOk};
ghost use Rattle.http_messages.specs.Message.{Arrival, Ending, Read, BeginsRequest, HasArrivals};
ghost use Rattle.http_messages.specs.Request.{Request as Spelled};
ghost use Rattle.filing_model.specs.Serving.{BeginsArrivals};
ghost use Rattle.filing_model.specs.Text.{completed, completed_at};
ghost use Rattle.gateway_requests.specs.Route.{view_message};

use crate::route::{Route, route_of};
use filing_model::{Completed, Mark};
use http_wire::{Block, HeadFault, Message, find_block, read_head};
use std::alloc::{AllocError, Global};

/// The requests that a connection of these bytes completed, in order: those of its filed requests that are marked Done.
/// The marks are those of the first requests, and of what was refused in the place of one; a mark beyond the last of
/// these completes nothing. The bytes are all that were given to the connection, or the first of them.
pub fn completed(alloc: Global, bytes: &[u8], marks: &[Mark]) -> Result<Vec<Completed>, AllocError>
    ensures all { IfOk result (λ list. (arrivals : List Arrival) (ending : Ending)
        → HasArrivals bytes.now arrivals ending → list.items ≡ completed arrivals marks.now) }
    ensures first { IfOk result (λ list. (arrivals : List Arrival) (ending : Ending)
        → BeginsArrivals bytes.now arrivals ending → length marks.now ≤ length arrivals
        → list.items ≡ completed arrivals marks.now) }
{
    let mut list = Vec::new(alloc);
    let mut rest = bytes;
    for mark in marks {
        match first_request(alloc, rest)? {
            Some((message, len)) => {
                complete(alloc, *mark, &message, &mut list)?;
                if message.head.closes() {
                    return Ok(list);
                }
                rest = after(rest, len);
            }
            None => return Ok(list),
        }
    }
    Ok(list)
}

/// The bytes after the first `len`.
fn after(bytes: &[u8], len: usize) -> &[u8]
    requires { len ≤ length bytes.now }
    ensures { result.now ≡ drop len bytes.now }
{
    &bytes[len..]
}

/// The request that the bytes begin with, and how many bytes it takes.
pub fn first_request(
    alloc: Global,
    bytes: &[u8],
) -> Result<Option<(Message<'_>, usize)>, AllocError>
    ensures some { IfOk result (λ found. IfSome found (λ p. BeginsRequest bytes.now (view_message p.0) p.1)) }
    ensures none { IfOk result (λ found.
        found ≡ None → (request : Spelled) (n : ℕ) → ¬ BeginsRequest bytes.now request n) }
{
    let Block::End(end) = find_block(bytes) else {
        return Ok(None);
    };
    match read_head(alloc, &bytes[..end]) {
        Ok(head) => {
            let len = head.body_length();
            if len > bytes.len() - end {
                return Ok(None);
            }
            let body = &bytes[end..end + len];
            Ok(Some((Message { head, body }, end + len)))
        }
        Err(HeadFault::Memory) => Err(AllocError),
        Err(_fault) => Ok(None),
    }
}

/// Adds the request that a message with this mark completed.
fn complete(
    alloc: Global,
    mark: Mark,
    message: &Message,
    list: &mut Vec<Completed>,
) -> Result<(), AllocError>
    ensures { OnOk result (list.new.items ≡ list.old.items ++ completed_at (Read (view_message message.now)) mark) }
{
    match mark {
        Mark::Done => push_filed(alloc, message, list),
        Mark::Unavailable | Mark::NotFiled => Ok(()),
    }
}

/// Adds the request that a completed message filed.
fn push_filed(alloc: Global, message: &Message, list: &mut Vec<Completed>) -> Result<(), AllocError>
    ensures { OnOk result
        (list.new.items ≡ list.old.items ++ completed_at (Read (view_message message.now)) Mark.Done) }
{
    let asked = route_of(alloc, message)?;
    list.reserve(1)?;
    if let Route::FileReport(filer, target, key) = asked {
        let mut body = Vec::new(alloc);
        body.extend_from_slice(message.body)?;
        list.push_reserved(Completed {
            filer: String::from_str(alloc, filer)?,
            key: String::from_str(alloc, key.as_str())?,
            target,
            body,
        });
    }
    Ok(())
}
