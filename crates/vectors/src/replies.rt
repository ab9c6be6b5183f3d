//! The vector of replies that a filer reads.

use crate::refusal::answer;
use example_texts::{CONTINUE, REGISTERED, front};
use http_wire::{Device, Reply, ReplyFault, read_reply};
use std::alloc::{AllocError, Global};

/// Vector 21: a reply after an interim one, cut replies, and one without a length.
pub(crate) fn replies(alloc: Global) -> Result<bool, AllocError> {
    Ok(whole_reply(alloc)? && faulty_replies(alloc)?)
}

fn whole_reply(alloc: Global) -> Result<bool, AllocError> {
    let bytes = format!(in alloc; "{CONTINUE}{REGISTERED}")?;
    match read(alloc, bytes.as_bytes())? {
        Ok(reply) => Ok(
            reply.status == 201
                && reply.content.as_slice()
                    == b"{\"number\":1,\"status\":\"registered\"}".as_slice(),
        ),
        Err(_) => Ok(false),
    }
}

/// The reply that is read of these bytes.
fn read(alloc: Global, bytes: &[u8]) -> Result<Result<Reply, ReplyFault>, AllocError> {
    answer(
        read_reply(alloc, &mut Device::new(bytes)),
        ReplyFault::Memory,
    )
}

fn faulty_replies(alloc: Global) -> Result<bool, AllocError> {
    for (bytes, fault) in [
        (front(REGISTERED.as_bytes(), 109), ReplyFault::Cut),
        ("".as_bytes(), ReplyFault::Cut),
        (
            "HTTP/1.1 201 Created\r\nContent-Type: application/json\r\n\r\n{\"number\":1,\"status\":\"registered\"}".as_bytes(),
            ReplyFault::NoLength,
        ),
    ] {
        if read(alloc, bytes)?.err() != Some(fault) {
            return Ok(false);
        }
    }
    Ok(true)
}
