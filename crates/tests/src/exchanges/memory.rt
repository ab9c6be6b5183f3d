//! An exchange that is made again if memory is refused.

use super::{exchanged, state_of, with_entry};
use crate::databases::Fresh;
use example_texts::REGISTERED_CLOSED;
use filer_client::{ExchangeFault, request_bytes};
use http_wire::ReplyFault;
use outbox_core::{Outbox, State, TakeFault};
use sqlite::{Alter, MemStore};
use std::alloc::Global;
use std::process::Abort;
use std::test::Fail;

/// What the entry has to send. It has no clause, so that what calls it carries none of the call's.
fn request_of<S: Alter>(alloc: Global, outbox: &mut Outbox<S>) -> Result<Vec<u8>, TakeFault> {
    request_bytes(alloc, outbox, 1)
}

/// Whether the fault is that memory ran out, of the call or of the bytes that it writes to.
fn wants_memory(fault: ExchangeFault) -> bool {
    matches!(
        fault,
        ExchangeFault::Write { .. }
            | ExchangeFault::Reply(ReplyFault::Memory)
            | ExchangeFault::Take(TakeFault::Memory)
    )
}

/// What an exchange comes to, which is made again if memory is refused; `None` if it was refused otherwise or has
/// changed the entry.
fn exchanged_at_last<S: Alter>(alloc: Global, outbox: &mut Outbox<S>) -> Option<State> {
    let reply = REGISTERED_CLOSED.as_bytes();
    let mut output = Vec::new(alloc);
    match exchanged(alloc, outbox, 1, reply, &mut output, None, None) {
        Ok(state) => Some(state),
        Err(fault) => {
            if !wants_memory(fault) || state_of(outbox) != Some(State::Open) {
                return None;
            }
            exchanged(alloc, outbox, 1, reply, &mut output, None, None).ok()
        }
    }
}

/// How long the request of the entry is, which is asked for again if memory is refused.
fn request_length<S: Alter>(alloc: Global, outbox: &mut Outbox<S>) -> Result<usize, TakeFault> {
    let request = match request_of(alloc, outbox) {
        Err(TakeFault::Memory) => request_of(alloc, outbox)?,
        answer => answer?,
    };
    Ok(request.len())
}

/// The outbox, which is made again if memory is refused.
fn made_at_last<S: Fresh>(alloc: Global) -> Option<Outbox<S>> {
    match with_entry(alloc) {
        None => with_entry(alloc),
        made => made,
    }
}

/// Asserts that an entry is sent and confirmed.
fn is_confirmed<S: Fresh>(rt: &impl Abort, alloc: Global) -> Result<(), Fail> {
    let mut outbox: Outbox<S> = made_at_last(alloc).ok_or("the outbox is not made")?;
    assert_eq!(rt; request_length(alloc, &mut outbox)?, 537);
    assert_eq!(rt;
        exchanged_at_last(alloc, &mut outbox),
        Some(State::Confirmed(1))
    );
    Ok(())
}

/// Each call is made again that was refused because memory ran out. Run it with each allocation refused too, one in a
/// run.
#[test]
fn refused_memory_changes_nothing(rt: HostRuntime) -> Result<(), Fail> {
    is_confirmed::<MemStore>(&rt, rt.alloc())
}
