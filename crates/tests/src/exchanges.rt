//! Exchanges of an outbox over streams in memory.

use crate::databases::Fresh;
use crate::stores::outbox::{create, put};
use example_texts::{Giving, REPORT, Taking};
use filer_client::{ExchangeFault, exchange};
use http_wire::Device;
use outbox_core::{Outbox, State};
use sqlite::Alter;
use std::alloc::Global;

mod failing;
mod faults;
mod memory;

/// The outbox of a filer with one entry, which is open; `None` if memory is refused.
fn with_entry<S: Fresh>(alloc: Global) -> Option<Outbox<S>> {
    let mut outbox = create(alloc, S::fresh(alloc)?).ok()?;
    put(alloc, &mut outbox, "k-1", false, REPORT.as_bytes()).ok()?;
    Some(outbox)
}

/// The state of entry 1; `None` if it isn't there, or is not read.
fn state_of<S: Alter>(outbox: &mut Outbox<S>) -> Option<State> {
    match outbox.entry(1) {
        Ok(Some(entry)) => Some(entry.state),
        _ => None,
    }
}

/// Exchanges what an entry has to send, 100 bytes a write, for a reply of these bytes, 50 a read. One read or write may
/// fail, before which so many don't.
fn exchanged<S: Alter>(
    alloc: Global,
    outbox: &mut Outbox<S>,
    id: u64,
    reply: &[u8],
    output: &mut Vec<u8>,
    failing_read: Option<usize>,
    failing_write: Option<usize>,
) -> Result<State, ExchangeFault> {
    let reader = Giving {
        rest: reply,
        most: 50,
        fails: failing_read,
    };
    let writer = Taking {
        output,
        most: 100,
        fails: failing_write,
    };
    exchange(
        alloc,
        &mut Device::new(reader),
        &mut Device::new(writer),
        outbox,
        id,
    )
}
