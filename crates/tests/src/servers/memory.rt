//! Requests that are sent again if memory is refused: what was kept stays, and the second reply is that of ample
//! memory. Run it with each allocation refused too, one in a run.

use super::examples::{LIST, SMALL};
use super::{LIMIT, served};
use crate::databases::Fresh;
use example_texts::{KEY_REUSED, REGISTERED, UNAVAILABLE};
use gateway_server::{Ended, Served};
use http_wire::ConnFault;
use intake_core::Intake;
use register_store::CreateFault;
use sqlite::{Alter, MemStore};
use std::alloc::{AllocError, Global};
use std::process::Abort;
use std::test::Fail;

/// A request and its reply.
type Exchange = (&'static str, &'static str);

/// A report, the same again, another under its key, and the list.
static EXCHANGES: [Exchange; 4] = [
    (SMALL, REGISTERED),
    (SMALL, REGISTERED),
    (
        "POST /filings/ACME HTTP/1.1\r\nHost: h\r\nIdempotency-Key: \"k-1\"\r\nContent-Length: 2\r\n\r\n{}",
        KEY_REUSED,
    ),
    (
        LIST,
        "HTTP/1.1 200 OK\r\nContent-Type: application/json\r\nContent-Length: 36\r\n\r\n{\"filings\":[{\"facts\":0,\"number\":1}]}",
    ),
];

/// An intake that keeps nothing yet.
fn made<S: Fresh>(alloc: Global) -> Result<Intake<S>, CreateFault> {
    match S::intake(alloc, LIMIT) {
        Err(CreateFault::Memory) => S::intake(alloc, LIMIT),
        answer => answer,
    }
}

/// Room for a reply, to which it is written without memory of its own.
fn room(alloc: Global) -> Result<Vec<u8>, AllocError> {
    match Vec::with_capacity(alloc, 1024) {
        Err(AllocError) => Vec::with_capacity(alloc, 1024),
        answer => answer,
    }
}

/// Whether a request that was refused because memory ran out got the reply that says so, or no reply.
fn is_told(served: &Served, output: &[u8]) -> bool {
    match served.ended {
        Ended::InputEnded => output == UNAVAILABLE.as_bytes(),
        Ended::Fault(ConnFault::Memory) => output.is_empty(),
        _ => false,
    }
}

/// Whether a request gets this reply, at once or when it is sent again.
fn goes<S: Alter>(
    alloc: Global,
    intake: &mut Intake<S>,
    (request, reply): Exchange,
) -> Result<bool, AllocError> {
    let mut output = room(alloc)?;
    let first = served(alloc, intake, request.as_bytes(), 4096, &mut output);
    if output.as_slice() == reply.as_bytes() {
        return Ok(true);
    }
    let told = is_told(&first, &output);
    output.clear();
    let _ = served(alloc, intake, request.as_bytes(), 4096, &mut output);
    Ok(told && output.as_slice() == reply.as_bytes())
}

/// Asserts that each request gets its reply.
fn hold<S: Fresh>(rt: &impl Abort, alloc: Global) -> Result<(), Fail> {
    let mut intake: Intake<S> = made(alloc)?;
    for (number, &exchange) in EXCHANGES.iter().enumerate() {
        assert!(rt; goes(alloc, &mut intake, exchange)?, "exchange {number}");
    }
    Ok(())
}

#[test]
fn refused_memory_changes_nothing(rt: HostRuntime) -> Result<(), Fail> {
    hold::<MemStore>(&rt, rt.alloc())
}
