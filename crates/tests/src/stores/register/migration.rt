//! Registers of earlier versions: what a migration makes of them, which it refuses, and what a stop in it leaves.

use super::calls::{intake_over, migrate, migrated, open};
use super::{Request, holds, submit};
use crate::databases::{Fresh, ran};
use crate::stores::stops::{Trial, hold};
use example_texts::{EARLIER_REGISTER, FOURTH_REGISTER, SECOND_REGISTER, SMALLEST, THIRD_REGISTER};
use filing_model::Style;
use key_string::KeyText;
use register_store::{OpenFault, Store, StoreFault};
use sqlite::{Alter, Connection, MemStore};
use std::alloc::Global;

/// An earlier form of a register, which is migrated.
struct Form {
    /// What the tables have beside those of every form.
    sql: &'static str,
    /// How many of its two requests, the first ones, are answered as before there were problem details.
    old_style: usize,
    /// Whether the second of them was sent to replace filing 1.
    replaces: bool,
}

/// The requests of a form in which none replaces a filing, and one that comes later.
const THREE: [Request; 3] = [
    ("k-1", false, SMALLEST, 1),
    ("k-2", false, "", 0),
    ("k-3", false, "{}", 0),
];

/// The same, of which the second is to replace filing 1.
const REPLACING: [Request; 3] = [
    ("k-1", false, SMALLEST, 1),
    ("k-2", true, "", 0),
    ("k-3", false, "{}", 0),
];

/// The two requests of a form, and one that comes later.
fn requests_of(form: &Form) -> [Request; 3] {
    if form.replaces { REPLACING } else { THREE }
}

const SECOND: &Form = &Form {
    sql: SECOND_REGISTER,
    old_style: 2,
    replaces: false,
};

const THIRD: &Form = &Form {
    sql: THIRD_REGISTER,
    old_style: 1,
    replaces: false,
};

const FOURTH: &Form = &Form {
    sql: FOURTH_REGISTER,
    old_style: 1,
    replaces: true,
};

/// A statement on tables, and one that undoes it.
type Change = (&'static str, &'static str);

/// A form, why its migration is refused, and the changes after which it is.
type Case = (&'static Form, OpenFault, &'static [Change]);

/// Another form, a name in use, and damage, which is reported before a name is.
static CASES: [Case; 9] = [
    (
        SECOND,
        OpenFault::NotOurs,
        &[
            (
                "UPDATE intake_meta SET form = 1",
                "UPDATE intake_meta SET form = 2",
            ),
            (
                "UPDATE intake_meta SET form = 5",
                "UPDATE intake_meta SET form = 2",
            ),
            (
                "UPDATE intake_meta SET form = 6",
                "UPDATE intake_meta SET form = 2",
            ),
            (
                "CREATE TABLE Migrated (id INTEGER PRIMARY KEY) STRICT",
                "DROP TABLE Migrated",
            ),
            ("CREATE INDEX amends ON kept (body)", "DROP INDEX amends"),
            (
                "CREATE VIEW amends AS SELECT seq FROM kept",
                "DROP VIEW amends",
            ),
            (
                "CREATE TABLE received (id INTEGER PRIMARY KEY) STRICT",
                "DROP TABLE received",
            ),
        ],
    ),
    (
        SECOND,
        OpenFault::Damaged { row: 0 },
        &[(
            "UPDATE intake_meta SET form = 4",
            "UPDATE intake_meta SET form = 2",
        )],
    ),
    (
        SECOND,
        OpenFault::Damaged { row: 2 },
        &[
            ("UPDATE finding SET code = 2", "UPDATE finding SET code = 1"),
            (
                "UPDATE finding SET code = 2; CREATE TABLE amends (id INTEGER PRIMARY KEY) STRICT",
                "UPDATE finding SET code = 1; DROP TABLE amends",
            ),
        ],
    ),
    (
        THIRD,
        OpenFault::NotOurs,
        &[
            (
                "CREATE TABLE amends (id INTEGER PRIMARY KEY) STRICT",
                "DROP TABLE amends",
            ),
            (
                "CREATE INDEX Received ON kept (body)",
                "DROP INDEX Received",
            ),
        ],
    ),
    (
        THIRD,
        OpenFault::Damaged { row: 0 },
        &[
            (
                "UPDATE intake_meta SET form = 4",
                "UPDATE intake_meta SET form = 3",
            ),
            (
                "UPDATE migrated SET last = 3",
                "UPDATE migrated SET last = 1",
            ),
            (
                "UPDATE migrated SET last = -1",
                "UPDATE migrated SET last = 1",
            ),
            ("DELETE FROM migrated", "INSERT INTO migrated VALUES (1, 1)"),
        ],
    ),
    (
        THIRD,
        OpenFault::Damaged { row: 2 },
        &[(
            "UPDATE migrated SET last = 3; UPDATE finding SET code = 2",
            "UPDATE migrated SET last = 1; UPDATE finding SET code = 1",
        )],
    ),
    (
        FOURTH,
        OpenFault::NotOurs,
        &[
            (
                "UPDATE intake_meta SET form = 5",
                "UPDATE intake_meta SET form = 4",
            ),
            (
                "UPDATE intake_meta SET form = 3",
                "UPDATE intake_meta SET form = 4",
            ),
            (
                "CREATE VIEW received AS SELECT seq FROM kept",
                "DROP VIEW received",
            ),
        ],
    ),
    (
        FOURTH,
        OpenFault::Damaged { row: 0 },
        &[
            (
                "UPDATE migrated SET last = 3",
                "UPDATE migrated SET last = 1",
            ),
            (
                "INSERT INTO amends VALUES (3, 1)",
                "DELETE FROM amends WHERE seq = 3",
            ),
            (
                "DROP TABLE amends",
                "CREATE TABLE amends (seq INTEGER PRIMARY KEY, target INTEGER NOT NULL) STRICT; INSERT INTO amends VALUES (2, 1)",
            ),
        ],
    ),
    (
        FOURTH,
        OpenFault::Damaged { row: 2 },
        &[(
            "UPDATE finding SET code = 2; CREATE TABLE received (id INTEGER PRIMARY KEY) STRICT",
            "UPDATE finding SET code = 1; DROP TABLE received",
        )],
    ),
];

/// The statements of a form in a database; `None` if one is refused.
fn with_form<S: Alter + Drop>(conn: Connection<S>, form: &Form) -> Option<Connection<S>> {
    ran(ran(conn, EARLIER_REGISTER)?, form.sql)
}

/// A register of the form in a new database.
fn earlier<S: Fresh>(alloc: Global, form: &Form) -> Option<Connection<S>> {
    with_form(S::fresh(alloc)?, form)
}

/// Whether the request under this key of ACME is answered as before there were problem details.
fn is_old<S: Alter>(alloc: Global, store: &mut Store<S>, key: &str) -> Result<bool, StoreFault> {
    let Ok(key) = KeyText::new(alloc, key) else {
        return Err(StoreFault::Memory);
    };
    match store.find("ACME", &key)? {
        Some(row) => Ok(row.style == Style::Old),
        None => Ok(false),
    }
}

/// Whether the first of these requests, as many as the form says, and no others are answered so.
fn has_styles<S: Alter>(
    alloc: Global,
    store: &mut Store<S>,
    form: &Form,
    requests: &[Request],
) -> Result<bool, StoreFault> {
    let mut has_all = true;
    for (at, request) in requests.iter().enumerate() {
        has_all = has_all && is_old(alloc, store, request.0)? == (at < form.old_style);
    }
    Ok(has_all)
}

/// Whether the register has these requests and no others, each with its style.
fn has<S: Alter>(
    alloc: Global,
    store: &mut Store<S>,
    form: &Form,
    requests: &[Request],
) -> Result<bool, StoreFault> {
    Ok(holds(alloc, store, requests)? && has_styles(alloc, store, form, requests)?)
}

/// The same, asked again if memory was refused.
fn has_again<S: Alter>(
    alloc: Global,
    store: &mut Store<S>,
    form: &Form,
    requests: &[Request],
) -> Result<bool, StoreFault> {
    match has(alloc, store, form, requests) {
        Err(StoreFault::Memory) => has(alloc, store, form, requests),
        answer => answer,
    }
}

/// The register, and whether it has these requests, each with its style; `None` if it is not opened.
fn found<S: Alter + Drop>(
    alloc: Global,
    conn: Connection<S>,
    form: &Form,
    requests: &[Request],
) -> Option<(Connection<S>, bool)> {
    let mut store = open(alloc, conn).ok()?;
    let has = matches!(has(alloc, &mut store, form, requests), Ok(true));
    Some((store.into_conn(), has))
}

/// The register after its migration and a new request, which is refused; `None` if either has another answer.
fn continued<S: Alter + Drop>(
    alloc: Global,
    conn: Connection<S>,
    form: &Form,
) -> Option<Connection<S>> {
    let mut intake = intake_over(alloc, migrate(alloc, conn).ok()?);
    match submit(alloc, &mut intake, requests_of(form)[2]) {
        Ok((0, false)) => Some(intake.into_store().into_conn()),
        _ => None,
    }
}

/// The database after a migration that is refused for this reason after a change, which is undone then.
fn refused<S: Fresh>(
    alloc: Global,
    form: &Form,
    reason: OpenFault,
    (sql, undo): Change,
) -> Option<Connection<S>> {
    let (conn, given) = migrated(alloc, ran(earlier(alloc, form)?, sql)?)?;
    if given == Some(reason) {
        ran(conn, undo)
    } else {
        None
    }
}

/// Whether a migration is refused for this reason after a change, and is made once that is undone, so the rows were
/// left. The register keeps a new request as one of after.
fn is_left<S: Fresh>(
    alloc: Global,
    form: &Form,
    reason: OpenFault,
    change: Change,
) -> Option<bool> {
    let conn: Connection<S> = refused(alloc, form, reason, change)?;
    let (_, has) = found(
        alloc,
        continued(alloc, conn, form)?,
        form,
        &requests_of(form),
    )?;
    Some(has)
}

#[test]
fn earlier_registers_are_taken_along_and_others_are_left(rt: HostRuntime) {
    for &(form, reason, changes) in &CASES {
        for &change in changes {
            let left = is_left::<MemStore>(rt.alloc(), form, reason, change);
            assert_eq!(rt; left, Some(true), "{}", change.0);
        }
    }
}

/// What a migration of a new register of the form answers.
fn migrated_new<S: Fresh>(alloc: Global, form: &Form) -> Result<Store<S>, OpenFault> {
    match earlier(alloc, form) {
        Some(conn) => migrate(alloc, conn),
        None => Err(OpenFault::Memory),
    }
}

/// The register, migrated. A refusal gives the database up, so another one is made then.
fn migrated_again<S: Fresh>(alloc: Global, form: &Form) -> Result<Store<S>, OpenFault> {
    match migrated_new(alloc, form) {
        Err(OpenFault::Memory) => migrated_new(alloc, form),
        answer => answer,
    }
}

/// Whether a migration that is made again if memory was refused gives the register.
fn survives_refusals<S: Fresh>(alloc: Global, form: &Form) -> Option<bool> {
    let mut store: Store<S> = migrated_again(alloc, form).ok()?;
    let has = has_again(alloc, &mut store, form, &requests_of(form)[..2]);
    Some(matches!(has, Ok(true)))
}

#[test]
fn refused_memory_changes_nothing(rt: HostRuntime) {
    for form in [SECOND, FOURTH] {
        assert_eq!(rt; survives_refusals::<MemStore>(rt.alloc(), form), Some(true));
    }
}

impl Trial for Form {
    fn make<S: Alter + Drop>(&self, _alloc: Global, conn: Connection<S>) -> Option<Connection<S>> {
        with_form(conn, self)
    }

    fn change<S: Alter + Drop>(
        &self,
        alloc: Global,
        conn: Connection<S>,
    ) -> Option<(Connection<S>, bool)> {
        let (conn, fault) = migrated(alloc, conn)?;
        Some((conn, fault.is_none()))
    }

    /// A register of the earlier version is migrated then. One whose migration was answered has to be the new one.
    fn look<S: Alter + Drop>(
        &self,
        alloc: Global,
        conn: Connection<S>,
        answered: bool,
    ) -> Option<(Connection<S>, bool)> {
        let (conn, fault) = migrated(alloc, conn)?;
        let (conn, has) = found(alloc, conn, self, &requests_of(self)[..2])?;
        let is_old_or_new = matches!(fault, Some(OpenFault::NotOurs))
            || !answered && fault.is_none();
        Some((conn, has && is_old_or_new))
    }
}

#[test]
fn a_stop_leaves_the_register_of_before_or_after(rt: HostRuntime) {
    for form in [SECOND, THIRD, FOURTH] {
        hold(&rt, rt.alloc(), form);
    }
}
