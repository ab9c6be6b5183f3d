//! Exchanges of which a read or a write fails.

use super::{exchanged, state_of, with_entry};
use crate::databases::Fresh;
use example_texts::{REGISTERED_CLOSED, REPORT, Text, bytes_of, front};
use filer_client::ExchangeFault;
use http_wire::ReplyFault;
use outbox_core::{Outbox, State, TakeFault};
use sqlite::{Alter, MemStore};
use std::alloc::Global;
use std::process::Abort;
use std::test::Fail;

/// The request of the entry, 537 bytes.
const REQUEST: Text = &[
    (
        "POST /filings/ACME HTTP/1.1\r\nHost: localhost\r\nIdempotency-Key: \"k-1\"\r\nContent-Type: application/json\r\nContent-Length: 393\r\nConnection: close\r\n\r\n",
        1,
    ),
    (REPORT, 1),
];

/// An exchange: the entry, the read and the write that fail, what it comes to, how many bytes of the request are
/// written, and the state of entry 1 then.
type Exchange = (
    u64,
    Option<usize>,
    Option<usize>,
    Result<State, ExchangeFault>,
    usize,
    State,
);

/// Of an entry that is not there; after each read and write; and of an entry that is confirmed, without any.
static OTHERS: [Exchange; 3] = [
    (
        2,
        None,
        None,
        Err(ExchangeFault::Take(TakeFault::NoEntry)),
        0,
        State::Open,
    ),
    (
        1,
        Some(3),
        Some(6),
        Ok(State::Confirmed(1)),
        537,
        State::Confirmed(1),
    ),
    (
        1,
        Some(0),
        Some(0),
        Ok(State::Confirmed(1)),
        0,
        State::Confirmed(1),
    ),
];

/// Whether an exchange goes as expected.
fn goes<S: Alter>(
    alloc: Global,
    outbox: &mut Outbox<S>,
    request: &[u8],
    (id, failing_read, failing_write, answer, sent, state): Exchange,
) -> bool {
    let reply = REGISTERED_CLOSED.as_bytes();
    let mut output = Vec::new(alloc);
    let given = exchanged(
        alloc,
        outbox,
        id,
        reply,
        &mut output,
        failing_read,
        failing_write,
    );
    given == answer && output.as_slice() == front(request, sent) && state_of(outbox) == Some(state)
}

/// Asserts that the entry stays open after each write that fails. The request of 537 bytes takes six.
fn each_write<S: Alter>(rt: &impl Abort, alloc: Global, outbox: &mut Outbox<S>, request: &[u8]) {
    for writes in 0..6 {
        let sent = 100 * writes;
        let fault = ExchangeFault::Write { sent };
        let exchange = (1, None, Some(writes), Err(fault), sent, State::Open);
        assert!(rt; goes(alloc, outbox, request, exchange), "write {writes}");
    }
}

/// Asserts that the entry stays open after each read that fails. The reply of 129 bytes takes three.
fn each_read<S: Alter>(rt: &impl Abort, alloc: Global, outbox: &mut Outbox<S>, request: &[u8]) {
    for reads in 0..3 {
        let fault = ExchangeFault::Reply(ReplyFault::Read);
        let exchange = (1, Some(reads), None, Err(fault), 537, State::Open);
        assert!(rt; goes(alloc, outbox, request, exchange), "read {reads}");
    }
}

/// Asserts that the other exchanges go as expected, one after another.
fn others<S: Alter>(rt: &impl Abort, alloc: Global, outbox: &mut Outbox<S>, request: &[u8]) {
    for (number, &exchange) in OTHERS.iter().enumerate() {
        assert!(rt; goes(alloc, outbox, request, exchange), "exchange {number}");
    }
}

/// Asserts that each exchange goes as expected.
fn hold<S: Fresh>(rt: &impl Abort, alloc: Global) -> Result<(), Fail> {
    let request = bytes_of(alloc, REQUEST)?;
    let mut outbox: Outbox<S> = with_entry(alloc).ok_or("the outbox is not made")?;
    each_write(rt, alloc, &mut outbox, &request);
    each_read(rt, alloc, &mut outbox, &request);
    others(rt, alloc, &mut outbox, &request);
    Ok(())
}

#[test]
fn each_read_and_write_fails_once(rt: HostRuntime) -> Result<(), Fail> {
    hold::<MemStore>(&rt, rt.alloc())
}
