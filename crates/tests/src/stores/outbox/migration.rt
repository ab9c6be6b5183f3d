//! Outboxes of an earlier version: what a migration makes of them, which it refuses, and what a stop in it leaves.

use super::calls::{migrate, migrated};
use super::memory::has_again;
use super::{Expected, found, put};
use crate::databases::{Fresh, ran};
use crate::stores::stops::{Trial, hold};
use example_texts::{FIRST_OUTBOX, NO_FACTS};
use outbox_core::{Outbox, OutboxFault, State};
use sqlite::{Alter, Connection, MemStore};
use std::alloc::Global;

/// The entries of an outbox of form 1, and one that is put later.
static THREE: [Expected; 3] = [
    ("k-1", false, NO_FACTS, State::Confirmed(1)),
    ("k-2", false, NO_FACTS, State::Open),
    ("k-3", true, NO_FACTS, State::Open),
];

/// A statement on the tables, and one that undoes it.
type Change = (&'static str, &'static str);

/// Why a migration is refused, and the changes after which it is.
type Case = (OutboxFault, &'static [Change]);

/// Another form, kind or filer, a name in use, and damage, which is reported before a name is.
static CASES: [Case; 3] = [
    (
        OutboxFault::NotOurs,
        &[
            (
                "UPDATE outbox_meta SET form = 0",
                "UPDATE outbox_meta SET form = 1",
            ),
            (
                "UPDATE outbox_meta SET form = 2",
                "UPDATE outbox_meta SET form = 1",
            ),
            (
                "UPDATE outbox_meta SET form = 3",
                "UPDATE outbox_meta SET form = 1",
            ),
            (
                "UPDATE outbox_meta SET kind = 'register'",
                "UPDATE outbox_meta SET kind = 'outbox'",
            ),
            (
                "UPDATE outbox_meta SET filer = ''",
                "UPDATE outbox_meta SET filer = 'ACME'",
            ),
            (
                "CREATE TABLE Target (id INTEGER PRIMARY KEY) STRICT",
                "DROP TABLE Target",
            ),
            ("CREATE INDEX target ON entry (body)", "DROP INDEX target"),
            (
                "CREATE VIEW target AS SELECT id FROM entry",
                "DROP VIEW target",
            ),
        ],
    ),
    (
        OutboxFault::Damaged { row: 1 },
        &[(
            "UPDATE entry SET number = NULL WHERE id = 1",
            "UPDATE entry SET number = 1 WHERE id = 1",
        )],
    ),
    (
        OutboxFault::Damaged { row: 2 },
        &[
            (
                "UPDATE entry SET state = 7 WHERE id = 2",
                "UPDATE entry SET state = 0 WHERE id = 2",
            ),
            (
                "UPDATE entry SET id = 3 WHERE id = 2",
                "UPDATE entry SET id = 2 WHERE id = 3",
            ),
            (
                "UPDATE entry SET state = 7 WHERE id = 2; CREATE TABLE target (id INTEGER PRIMARY KEY) STRICT",
                "UPDATE entry SET state = 0 WHERE id = 2; DROP TABLE target",
            ),
        ],
    ),
];

/// An outbox of form 1 in a new database; `None` if something is refused.
fn earlier<S: Fresh>(alloc: Global) -> Option<Connection<S>> {
    ran(S::fresh(alloc)?, FIRST_OUTBOX)
}

/// The outbox after its migration and a new entry, which replaces a filing; `None` if either is refused.
fn continued<S: Alter + Drop>(alloc: Global, conn: Connection<S>) -> Option<Connection<S>> {
    let mut outbox = migrate(alloc, conn).ok()?;
    put(alloc, &mut outbox, "k-3", true, NO_FACTS).ok()?;
    Some(outbox.into_conn())
}

/// The database after a migration that is refused for this reason after a change, which is undone then.
fn refused<S: Fresh>(
    alloc: Global,
    reason: OutboxFault,
    (sql, undo): Change,
) -> Option<Connection<S>> {
    let (conn, given) = migrated(alloc, ran(earlier(alloc)?, sql)?)?;
    if given == Some(reason) {
        ran(conn, undo)
    } else {
        None
    }
}

/// Whether a migration is refused for this reason after a change, and is made once that is undone, so the rows were
/// left. The outbox takes a new entry then, and is found so when it is opened.
fn is_left<S: Fresh>(alloc: Global, reason: OutboxFault, change: Change) -> Option<bool> {
    let conn: Connection<S> = continued(alloc, refused(alloc, reason, change)?)?;
    let (_, has) = found(alloc, conn, &THREE)?;
    Some(has)
}

#[test]
fn an_earlier_outbox_is_taken_along_and_others_are_left(rt: HostRuntime) {
    for &(reason, changes) in &CASES {
        for &change in changes {
            let left = is_left::<MemStore>(rt.alloc(), reason, change);
            assert_eq!(rt; left, Some(true), "{}", change.0);
        }
    }
}

/// What a migration of a new outbox of form 1 answers.
fn migrated_new<S: Fresh>(alloc: Global) -> Result<Outbox<S>, OutboxFault> {
    match earlier(alloc) {
        Some(conn) => migrate(alloc, conn),
        None => Err(OutboxFault::Memory),
    }
}

/// The outbox, migrated. A refusal gives the database up, so another one is made then.
fn migrated_again<S: Fresh>(alloc: Global) -> Result<Outbox<S>, OutboxFault> {
    match migrated_new(alloc) {
        Err(OutboxFault::Memory) => migrated_new(alloc),
        answer => answer,
    }
}

/// Whether a migration that is made again if memory was refused gives the outbox.
fn survives_refusals<S: Fresh>(alloc: Global) -> Option<bool> {
    let mut outbox: Outbox<S> = migrated_again(alloc).ok()?;
    Some(matches!(has_again(&mut outbox, (&THREE[..2], 2)), Ok(true)))
}

/// Run it with each allocation refused too, one in a run.
#[test]
fn refused_memory_changes_nothing(rt: HostRuntime) {
    assert_eq!(rt; survives_refusals::<MemStore>(rt.alloc()), Some(true));
}

/// An outbox of form 1, which is migrated.
#[derive(Clone, Copy)]
struct FirstForm;

impl Trial for FirstForm {
    fn make<S: Alter + Drop>(&self, _alloc: Global, conn: Connection<S>) -> Option<Connection<S>> {
        ran(conn, FIRST_OUTBOX)
    }

    fn change<S: Alter + Drop>(
        &self,
        alloc: Global,
        conn: Connection<S>,
    ) -> Option<(Connection<S>, bool)> {
        let (conn, fault) = migrated(alloc, conn)?;
        Some((conn, fault.is_none()))
    }

    /// An outbox of the earlier version is migrated then. One whose migration was answered has to be the new one.
    fn look<S: Alter + Drop>(
        &self,
        alloc: Global,
        conn: Connection<S>,
        answered: bool,
    ) -> Option<(Connection<S>, bool)> {
        let (conn, fault) = migrated(alloc, conn)?;
        let (conn, has) = found(alloc, conn, &THREE[..2])?;
        let is_old_or_new = matches!(fault, Some(OutboxFault::NotOurs))
            || !answered && fault.is_none();
        Some((conn, has && is_old_or_new))
    }
}

#[test]
fn a_stop_leaves_the_outbox_of_before_or_after(rt: HostRuntime) {
    hold(&rt, rt.alloc(), &FirstForm);
}
