//! The life of an entry, with each call made again that was refused because memory ran out: the entries stay, and the
//! second answer is that of ample memory. Run it with each allocation refused too, one in a run.

use super::calls::{create, next_id};
use super::{Call, Expected, holds, is_made};
use crate::databases::Fresh;
use example_texts::NO_FACTS;
use key_string::KeyText;
use outbox_core::{Outbox, OutboxFault, State, StoreFault, key_of};
use sqlite::{Alter, MemStore};
use std::alloc::{AllocError, Global};
use uuid::Uuid;

/// What an outbox holds: its entries, and the id of the next open one, 0 if none is open.
pub type Held = (&'static [Expected], u64);

const NONE: Held = (&[], 0);

const OPEN: Held = (&[("k-1", false, NO_FACTS, State::Open)], 1);

const CONFIRMED: Held = (&[("k-1", false, NO_FACTS, State::Confirmed(1))], 0);

/// A call, whether it is made, and what the outbox holds before and after it.
struct Move {
    call: Call,
    made: bool,
    before: Held,
    after: Held,
}

static LIFE: [Move; 6] = [
    Move {
        call: Call::Put("k-1", false, NO_FACTS),
        made: true,
        before: NONE,
        after: OPEN,
    },
    Move {
        call: Call::Put("k-1", false, b"{}"),
        made: false,
        before: OPEN,
        after: OPEN,
    },
    Move {
        call: Call::Reply(
            1,
            503,
            b"{\"reason\":\"unavailable\",\"status\":503,\"title\":\"Service Unavailable\",\"type\":\"about:blank\"}",
        ),
        made: true,
        before: OPEN,
        after: OPEN,
    },
    Move {
        call: Call::Reply(1, 201, b"{\"number\":1,\"status\":\"registered\"}"),
        made: true,
        before: OPEN,
        after: CONFIRMED,
    },
    Move {
        call: Call::Reply(
            1,
            422,
            b"{\"reason\":\"key-reused\",\"status\":422,\"title\":\"Unprocessable Content\",\"type\":\"about:blank\"}",
        ),
        made: true,
        before: CONFIRMED,
        after: CONFIRMED,
    },
    Move {
        call: Call::Reply(2, 201, b"{\"number\":1,\"status\":\"registered\"}"),
        made: false,
        before: CONFIRMED,
        after: CONFIRMED,
    },
];

/// What making a new outbox answers.
fn created<S: Fresh>(alloc: Global) -> Result<Outbox<S>, OutboxFault> {
    match S::fresh(alloc) {
        Some(conn) => create(alloc, conn),
        None => Err(OutboxFault::Memory),
    }
}

/// What making an outbox answers, tried again if memory ran out: a refusal gives the database up, so another one is
/// made then.
fn created_again<S: Fresh>(alloc: Global) -> Result<Outbox<S>, OutboxFault> {
    match created(alloc) {
        Err(OutboxFault::Memory) => created(alloc),
        answer => answer,
    }
}

/// Whether the outbox holds this.
fn has<S: Alter>(outbox: &mut Outbox<S>, (entries, next): Held) -> Result<bool, StoreFault> {
    Ok(holds(outbox, entries)? && next_id(outbox)? == next)
}

pub fn has_again<S: Alter>(outbox: &mut Outbox<S>, held: Held) -> Result<bool, StoreFault> {
    match has(outbox, held) {
        Err(StoreFault::Memory) => has(outbox, held),
        answer => answer,
    }
}

/// Whether a call is made, at once or, if memory was refused, which changes nothing, at the same call again.
fn is_made_again<S: Alter>(
    alloc: Global,
    outbox: &mut Outbox<S>,
    row: &Move,
) -> Result<bool, StoreFault> {
    let answer = is_made(alloc, outbox, row.call);
    if matches!(answer, Err(StoreFault::Memory)) && has(outbox, row.before)? {
        is_made(alloc, outbox, row.call)
    } else {
        answer
    }
}

/// Whether a call does what is expected.
fn moves<S: Alter>(alloc: Global, outbox: &mut Outbox<S>, row: &Move) -> bool {
    is_made_again(alloc, outbox, row) == Ok(row.made)
        && matches!(has_again(outbox, row.after), Ok(true))
}

/// Whether an entry is put, looked up, moved and settled.
fn lives<S: Fresh>(alloc: Global) -> Option<bool> {
    let mut outbox: Outbox<S> = created_again(alloc).ok()?;
    for row in &LIFE {
        if !moves(alloc, &mut outbox, row) {
            return Some(false);
        }
    }
    Some(true)
}

/// The key of the nil UUID.
fn nil_key(alloc: Global) -> Result<KeyText, AllocError> {
    match key_of(alloc, Uuid::nil()) {
        Err(AllocError) => key_of(alloc, Uuid::nil()),
        answer => answer,
    }
}

#[test]
fn refused_memory_changes_nothing(rt: HostRuntime) {
    assert_eq!(rt; lives::<MemStore>(rt.alloc()), Some(true));
    let key = nil_key(rt.alloc()).expect(&rt, "no memory");
    assert_eq!(rt; key.as_str(), "00000000-0000-0000-0000-000000000000");
}
