//! Outboxes, from outside.

use crate::stores::targets::first_if;
pub use calls::create;
use example_texts::NO_FACTS;
use http_messages::{Kind, Reply};
use key_string::KeyText;
use outbox_core::{Entry, Outbox, PutFault, State, StoreFault, TakeFault};
use sqlite::{Alter, Connection};
use std::alloc::Global;

mod calls;
mod damage;
mod memory;
mod migration;
mod stops;

/// An entry as it is expected: its key, whether it replaces filing 1, its body and its state.
type Expected = (&'static str, bool, &'static [u8], State);

/// One entry, which is open.
static ONE: [Expected; 1] = [("k-1", false, NO_FACTS, State::Open)];

/// A call that changes an outbox.
#[derive(Clone, Copy)]
enum Call {
    /// A report is put in under this key, which replaces filing 1 or none.
    Put(&'static str, bool, &'static [u8]),
    /// A reply with this status and content is taken for the entry of this id.
    Reply(u64, u16, &'static [u8]),
}

/// What a put of these answers.
pub fn put<S: Alter>(
    alloc: Global,
    outbox: &mut Outbox<S>,
    key: &str,
    replaces: bool,
    body: &[u8],
) -> Result<u64, PutFault> {
    let Ok(key) = KeyText::new(alloc, key) else {
        return Err(PutFault::Memory);
    };
    match body.to_vec(alloc) {
        Ok(body) => outbox.put(key, first_if(replaces), body),
        Err(_) => Err(PutFault::Memory),
    }
}

/// What a reply of these does to an entry.
fn take<S: Alter>(
    alloc: Global,
    outbox: &mut Outbox<S>,
    id: u64,
    status: u16,
    content: &[u8],
) -> Result<State, TakeFault> {
    let Ok(content) = content.to_vec(alloc) else {
        return Err(TakeFault::Memory);
    };
    let reply = Reply {
        status,
        content,
        kind: Kind::Json,
    };
    outbox.take(id, &reply)
}

/// Whether a report is put in.
fn is_put(answer: Result<u64, PutFault>) -> Result<bool, StoreFault> {
    match answer {
        Ok(_) => Ok(true),
        Err(PutFault::Memory) => Err(StoreFault::Memory),
        Err(PutFault::Store) => Err(StoreFault::Store),
        Err(_) => Ok(false),
    }
}

/// Whether a reply is taken.
fn is_taken(answer: Result<State, TakeFault>) -> Result<bool, StoreFault> {
    match answer {
        Ok(_) => Ok(true),
        Err(TakeFault::Memory) => Err(StoreFault::Memory),
        Err(TakeFault::Store) => Err(StoreFault::Store),
        Err(_) => Ok(false),
    }
}

/// Whether a call is made, or refused because of what the outbox holds.
fn is_made<S: Alter>(
    alloc: Global,
    outbox: &mut Outbox<S>,
    call: Call,
) -> Result<bool, StoreFault> {
    match call {
        Call::Put(key, replaces, body) => is_put(put(alloc, outbox, key, replaces, body)),
        Call::Reply(id, status, content) => is_taken(take(alloc, outbox, id, status, content)),
    }
}

fn is_entry(entry: &Entry, (key, replaces, body, state): Expected) -> bool {
    entry.key.as_str() == key
        && entry.target == first_if(replaces)
        && entry.body.as_slice() == body
        && entry.state == state
}

/// Whether the entry of this id is there, and is this one.
fn has_entry<S: Alter>(
    outbox: &mut Outbox<S>,
    id: u64,
    expected: Expected,
) -> Result<bool, StoreFault> {
    match outbox.entry(id)? {
        Some(entry) => Ok(is_entry(&entry, expected)),
        None => Ok(false),
    }
}

/// Whether the outbox has these entries and no others.
fn holds<S: Alter>(outbox: &mut Outbox<S>, expected: &[Expected]) -> Result<bool, StoreFault> {
    let mut has_all = calls::entry_count(outbox)? == expected.len();
    for at in 0..expected.len() {
        has_all = has_all && has_entry(outbox, at as u64 + 1, expected[at])?;
    }
    Ok(has_all)
}

/// The outbox, and whether it has these entries and no others; `None` if it is not opened.
fn found<S: Alter + Drop>(
    alloc: Global,
    conn: Connection<S>,
    expected: &[Expected],
) -> Option<(Connection<S>, bool)> {
    let mut outbox = calls::open(alloc, conn).ok()?;
    let holds = matches!(holds(&mut outbox, expected), Ok(true));
    Some((outbox.into_conn(), holds))
}

/// A new outbox with one entry, which is open.
fn with_entry<S: Alter + Drop>(alloc: Global, conn: Connection<S>) -> Option<Connection<S>> {
    let mut outbox = calls::create(alloc, conn).ok()?;
    put(alloc, &mut outbox, "k-1", false, NO_FACTS).ok()?;
    Some(outbox.into_conn())
}
