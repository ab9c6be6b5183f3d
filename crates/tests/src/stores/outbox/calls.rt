//! Calls of an outbox with no clauses, of which the tests need none: a test that makes several is checked quickly.

use crate::databases::ready;
use outbox_core::{Outbox, OutboxFault, StoreFault, migrate_outbox};
use sqlite::{Alter, Connection};
use std::alloc::Global;

/// What `create` answers for `ACME`.
pub fn create<S: Alter + Drop>(
    alloc: Global,
    conn: Connection<S>,
) -> Result<Outbox<S>, OutboxFault> {
    match ready(conn) {
        Some(conn) => Outbox::create(alloc, conn, "ACME"),
        None => Err(OutboxFault::Disk),
    }
}

pub fn open<S: Alter + Drop>(alloc: Global, conn: Connection<S>) -> Result<Outbox<S>, OutboxFault> {
    match ready(conn) {
        Some(conn) => Outbox::open(alloc, conn),
        None => Err(OutboxFault::Disk),
    }
}

pub fn migrate<S: Alter + Drop>(
    alloc: Global,
    conn: Connection<S>,
) -> Result<Outbox<S>, OutboxFault> {
    match ready(conn) {
        Some(conn) => Outbox::migrate(alloc, conn),
        None => Err(OutboxFault::Disk),
    }
}

/// The connection after a migration, and how that is refused, if it is.
pub fn migrated<S: Alter + Drop>(
    alloc: Global,
    conn: Connection<S>,
) -> Option<(Connection<S>, Option<OutboxFault>)> {
    let mut conn = ready(conn)?;
    let fault = migrate_outbox(alloc, &mut conn).err();
    Some((conn, fault))
}

/// How many entries are listed.
pub fn entry_count<S: Alter>(outbox: &mut Outbox<S>) -> Result<usize, StoreFault> {
    Ok(outbox.states()?.len())
}

/// The id of the next open entry, or 0.
pub fn next_id<S: Alter>(outbox: &mut Outbox<S>) -> Result<u64, StoreFault> {
    match outbox.next_open()? {
        Some(entry) => Ok(entry.id),
        None => Ok(0),
    }
}
