//! Openings of databases that are no outboxes, or damaged ones.

use super::calls::open;
use super::with_entry;
use crate::databases::{Fresh, ran};
use outbox_core::OutboxFault;
use sqlite::{Connection, MemStore};
use std::alloc::Global;

/// An outbox with one entry, after a statement on its tables.
fn changed<S: Fresh>(alloc: Global, sql: &str) -> Option<Connection<S>> {
    ran(with_entry(alloc, S::fresh(alloc)?)?, sql)
}

/// How an opening is refused then, if it is; `None` if the statement is refused.
fn fault_after<S: Fresh>(alloc: Global, sql: &str) -> Option<Option<OutboxFault>> {
    let conn: Connection<S> = changed(alloc, sql)?;
    Some(open(alloc, conn).err())
}

/// How an opening is refused, if it is, and the statements on the tables of an outbox with one entry after which it is.
static CHANGES: [(Option<OutboxFault>, &[&str]); 4] = [
    (
        Some(OutboxFault::NotOurs),
        &[
            "UPDATE outbox_meta SET filer = ''",
            "UPDATE outbox_meta SET form = 1",
            "UPDATE outbox_meta SET form = 3",
            "UPDATE outbox_meta SET form = 1; DROP TABLE target",
            "DROP TABLE outbox_meta",
        ],
    ),
    (
        Some(OutboxFault::Damaged { row: 0 }),
        &[
            "DROP TABLE entry",
            "DROP TABLE target",
            "UPDATE entry SET state = 7; DROP TABLE target",
            "INSERT INTO target VALUES (2, 1)",
            "INSERT INTO target VALUES (0, 1)",
        ],
    ),
    (
        Some(OutboxFault::Damaged { row: 1 }),
        &[
            "UPDATE entry SET state = 7",
            "UPDATE entry SET number = 5",
            "UPDATE entry SET state = 1",
            "UPDATE entry SET id = 2",
            "UPDATE entry SET idem = ''",
            "INSERT INTO target VALUES (1, 0)",
            "INSERT INTO target VALUES (1, -1)",
            "INSERT INTO target VALUES (2, 1); UPDATE entry SET state = 7",
        ],
    ),
    (
        None,
        &[
            "UPDATE entry SET state = 1, number = 5",
            "INSERT INTO target VALUES (1, 1)",
            "INSERT INTO target VALUES (1, 9223372036854775807)",
        ],
    ),
];

#[test]
fn damage_is_told(rt: HostRuntime) {
    for &(fault, changes) in &CHANGES {
        for &sql in changes {
            let given = fault_after::<MemStore>(rt.alloc(), sql);
            assert_eq!(rt; given, Some(fault), "{sql}");
        }
    }
}
