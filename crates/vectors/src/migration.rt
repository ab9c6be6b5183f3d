//! The vector of a register of an earlier version, which is migrated.

ghost use Rattle.table_rows.specs.Standing.{IsAtRest};

use crate::files::execute;
use crate::history::{self, PIECE, Part};
use crate::refusal::{answer, refused};
use crate::register::opened;
use crate::visits::{Visit, visits};
use example_texts::{EARLIER_REGISTER, NOT_JSON, REGISTERED, REPORT, SECOND_REGISTER, SMALLEST};
use gateway_server::{Ended, Mark};
use intake_core::Intake;
use register_store::{OpenFault, Store};
use sqlite::{Alter, Connection};
use std::alloc::{AllocError, Global};

/// The reply to an empty body before there were problem details.
const NOT_JSON_BEFORE: &str =
    "HTTP/1.1 400 Bad Request\r\nContent-Type: application/json\r\nContent-Length: 64\r\n\r\n{\"findings\":[{\"code\":\"not-json\",\"place\":\"\"}],\"status\":\"refused\"}";

/// The reply to another body under a used key before there were problem details.
const KEY_REUSED_BEFORE: &str =
    "HTTP/1.1 422 Unprocessable Content\r\nContent-Type: application/json\r\nContent-Length: 23\r\n\r\n{\"status\":\"key-reused\"}";

/// Vector 25: a register of an earlier version keeps its replies, and answers new keys with problem details.
pub(crate) fn migrated(alloc: Global) -> Result<bool, AllocError> {
    visits(
        alloc,
        &[
            Visit::MakeEarlierRegister,
            Visit::MigrateRegister,
            Visit::OpenMigrated,
            Visit::MigrateAgain,
        ],
    )
}

/// Makes a register of the second form.
pub(crate) fn make_earlier<S: Alter + Drop>(
    mut conn: Connection<S>,
) -> Result<Option<Connection<S>>, AllocError> {
    let made = execute(&mut conn, EARLIER_REGISTER)? && execute(&mut conn, SECOND_REGISTER)?;
    Ok(made.then_some(conn))
}

/// Migrates the register, which answers old keys as before, and a new one with problem details.
pub(crate) fn migrate<S: Alter + Drop>(
    alloc: Global,
    conn: Connection<S>,
) -> Result<Option<Connection<S>>, AllocError>
    requires { IsAtRest conn }
{
    match answer(Store::migrate(alloc, conn), OpenFault::Memory)? {
        Ok(store) => asked(alloc, store),
        Err(_) => Ok(None),
    }
}

/// Opens the register, which gives the same answers.
pub(crate) fn open<S: Alter + Drop>(
    alloc: Global,
    conn: Connection<S>,
) -> Result<Option<Connection<S>>, AllocError>
    requires { IsAtRest conn }
{
    match opened(alloc, conn)? {
        Some(store) => asked(alloc, store),
        None => Ok(None),
    }
}

/// The connection of a register that answers each key as expected.
fn asked<S: Alter + Drop>(
    alloc: Global,
    store: Store<S>,
) -> Result<Option<Connection<S>>, AllocError> {
    let mut intake = Intake::new(alloc, store, 1_000_000);
    let tells = tells_each(alloc, &mut intake)?;
    Ok(tells.then_some(intake.into_store().into_conn()))
}

/// Whether a migration is refused because the register has no earlier form.
pub(crate) fn migrate_again<S: Alter + Drop>(
    alloc: Global,
    conn: Connection<S>,
) -> Result<Option<Connection<S>>, AllocError>
    requires { IsAtRest conn }
{
    refused(
        Store::migrate_or_back(alloc, conn),
        OpenFault::NotOurs,
        OpenFault::Memory,
    )
}

/// Whether old keys are answered as before, and a new one with problem details.
fn tells_each<S: Alter>(alloc: Global, intake: &mut Intake<S>) -> Result<bool, AllocError> {
    let expected = history::Connection {
        given: &[
            Part::Filing("ACME", "k-1", SMALLEST),
            Part::Filing("ACME", "k-2", ""),
            Part::Filing("ACME", "k-2", REPORT),
            Part::Filing("ACME", "k-3", ""),
        ],
        written: &[REGISTERED, NOT_JSON_BEFORE, KEY_REUSED_BEFORE, NOT_JSON],
        marks: &[Mark::Done; 4],
        ended: Ended::InputEnded,
    };
    expected.goes(alloc, intake, PIECE)
}
