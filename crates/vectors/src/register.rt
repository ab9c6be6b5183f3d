//! The vector of a register that is opened again.

ghost use Rattle.table_rows.specs.Standing.{IsAtRest};

use crate::examples::{REQUEST, key_text};
use crate::history::{self, PIECE, Part};
use crate::refusal::{answer, refused};
use crate::visits::{Visit, visits};
use example_texts::{REGISTERED, REPORT, SMALLEST};
use gateway_server::{Ended, Mark};
use intake_core::Intake;
use register_store::{CreateFault, KeptRow, OpenFault, Outcome, Store, StoreFault};
use sqlite::{Alter, Connection, params};
use std::alloc::{AllocError, Global};
use table_rows::Cause;

/// Vector 23: a register is found as it was left, and damage to it is reported.
pub(crate) fn reopened(alloc: Global) -> Result<bool, AllocError> {
    Ok(found(alloc)? && damaged(alloc)? && not_ours(alloc)? && taken(alloc)?)
}

/// Whether an opening finds the one request, and no other.
fn found(alloc: Global) -> Result<bool, AllocError> {
    visits(alloc, &[Visit::FillRegister, Visit::FindRequest])
}

/// Whether another body in the kept row is reported.
fn damaged(alloc: Global) -> Result<bool, AllocError> {
    visits(
        alloc,
        &[Visit::FillRegister, Visit::ChangeBody, Visit::OpenDamaged],
    )
}

/// Whether a database without tables is reported.
fn not_ours(alloc: Global) -> Result<bool, AllocError> {
    visits(alloc, &[Visit::OpenNone])
}

/// Whether a second register in a database is refused.
fn taken(alloc: Global) -> Result<bool, AllocError> {
    visits(alloc, &[Visit::FillRegister, Visit::MakeSecondRegister])
}

/// Makes a register in this database, and gives it three times the same request.
pub(crate) fn fill<S: Alter + Drop>(
    alloc: Global,
    conn: Connection<S>,
) -> Result<Option<Connection<S>>, AllocError>
    requires { IsAtRest conn }
{
    let Some(store) = created(alloc, conn)? else {
        return Ok(None);
    };
    let mut intake = Intake::new(alloc, store, 1_000_000);
    let takes = takes_once(alloc, &mut intake)?;
    Ok(takes.then_some(intake.into_store().into_conn()))
}

/// A new register in this database.
fn created<S: Alter + Drop>(
    alloc: Global,
    conn: Connection<S>,
) -> Result<Option<Store<S>>, AllocError>
    requires { IsAtRest conn }
{
    Ok(answer(Store::create(alloc, conn), CreateFault::Memory)?.ok())
}

/// Whether a request that comes three times is answered three times that it is registered.
fn takes_once<S: Alter>(alloc: Global, intake: &mut Intake<S>) -> Result<bool, AllocError> {
    let expected = history::Connection {
        given: &[Part::Text(REQUEST); 3],
        written: &[REGISTERED; 3],
        marks: &[Mark::Done; 3],
        ended: Ended::InputEnded,
    };
    expected.goes(alloc, intake, PIECE)
}

/// Finds the one request in this database, and no other.
pub(crate) fn find<S: Alter + Drop>(
    alloc: Global,
    conn: Connection<S>,
) -> Result<Option<Connection<S>>, AllocError>
    requires { IsAtRest conn }
{
    let Some(mut store) = opened(alloc, conn)? else {
        return Ok(None);
    };
    let has_one = has_first(alloc, &mut store)?
        && has_no_second(alloc, &mut store)?
        && has_one_request(&mut store)?;
    Ok(has_one.then_some(store.into_conn()))
}

/// The register that is in this database.
pub(crate) fn opened<S: Alter + Drop>(
    alloc: Global,
    conn: Connection<S>,
) -> Result<Option<Store<S>>, AllocError>
    requires { IsAtRest conn }
{
    Ok(answer(Store::open(alloc, conn), OpenFault::Memory)?.ok())
}

/// What is kept of `ACME` under a key, if that is read.
fn kept<S: Alter>(
    alloc: Global,
    store: &mut Store<S>,
    key: &str,
) -> Result<Option<Option<KeptRow>>, AllocError> {
    match key_text(alloc, key)? {
        Some(key) => Ok(answer(store.find("ACME", &key), StoreFault::Memory)?.ok()),
        None => Ok(None),
    }
}

fn has_first<S: Alter>(alloc: Global, store: &mut Store<S>) -> Result<bool, AllocError> {
    match kept(alloc, store, "k-1")? {
        Some(Some(row)) => Ok(
            row.body.as_slice() == REPORT.as_bytes()
                && matches!(row.outcome, Outcome::Registered(1)),
        ),
        _ => Ok(false),
    }
}

fn has_no_second<S: Alter>(alloc: Global, store: &mut Store<S>) -> Result<bool, AllocError> {
    Ok(matches!(kept(alloc, store, "k-2")?, Some(None)))
}

fn has_one_request<S: Alter>(store: &mut Store<S>) -> Result<bool, AllocError> {
    let Ok(requests) = answer(store.requests(), StoreFault::Memory)? else {
        return Ok(false);
    };
    match requests.as_slice() {
        [request] => Ok(
            request.filer.as_str() == "ACME"
                && request.key.as_str() == "k-1"
                && request.body.as_slice() == REPORT.as_bytes(),
        ),
        _ => Ok(false),
    }
}

/// Puts another body into the kept row.
pub(crate) fn change_body<S: Alter + Drop>(
    mut conn: Connection<S>,
) -> Result<Option<Connection<S>>, AllocError> {
    let changed = conn.execute(
        "UPDATE kept SET body = ?1 WHERE seq = 1",
        params![SMALLEST.as_bytes()],
    );
    let changed = answer(changed.map_err(Cause::from), Cause::Memory)?;
    Ok(changed.is_ok().then_some(conn))
}

/// Whether the database is refused as a register for this reason.
pub(crate) fn refuse<S: Alter + Drop>(
    alloc: Global,
    conn: Connection<S>,
    reason: OpenFault,
) -> Result<Option<Connection<S>>, AllocError>
    requires { IsAtRest conn }
{
    refused(Store::open_or_back(alloc, conn), reason, OpenFault::Memory)
}

/// Whether a second register in the database is refused.
pub(crate) fn make_second<S: Alter + Drop>(
    alloc: Global,
    conn: Connection<S>,
) -> Result<Option<Connection<S>>, AllocError>
    requires { IsAtRest conn }
{
    refused(
        Store::create_or_back(alloc, conn),
        CreateFault::Taken,
        CreateFault::Memory,
    )
}
