//! The vector of an outbox of an earlier version, which is migrated.

ghost use Rattle.table_rows.specs.Standing.{IsAtRest};

use crate::files::execute;
use crate::outbox::{first_entry, has_states};
use crate::refusal::{answer, refused};
use crate::visits::{Visit, visits};
use example_texts::{FIRST_OUTBOX, NO_FACTS};
use outbox_core::{Outbox, OutboxFault, State};
use sqlite::{Alter, Connection};
use std::alloc::{AllocError, Global};

/// The end of vector 27: an outbox of an earlier version keeps its entries, which replace nothing, and has this version
/// then.
pub(crate) fn migrated(alloc: Global) -> Result<bool, AllocError> {
    visits(
        alloc,
        &[
            Visit::MakeEarlierOutbox,
            Visit::MigrateOutbox,
            Visit::MigrateOutboxAgain,
        ],
    )
}

/// Makes an outbox of the first form.
pub(crate) fn make_earlier<S: Alter + Drop>(
    mut conn: Connection<S>,
) -> Result<Option<Connection<S>>, AllocError> {
    Ok(execute(&mut conn, FIRST_OUTBOX)?.then_some(conn))
}

/// Migrates the outbox, which has the entries as they were.
pub(crate) fn migrate<S: Alter + Drop>(
    alloc: Global,
    conn: Connection<S>,
) -> Result<Option<Connection<S>>, AllocError>
    requires { IsAtRest conn }
{
    let Some(mut outbox) = taken_along(alloc, conn)? else {
        return Ok(None);
    };
    Ok(is_kept(&mut outbox)?.then_some(outbox.into_conn()))
}

/// The outbox after its migration.
fn taken_along<S: Alter + Drop>(
    alloc: Global,
    conn: Connection<S>,
) -> Result<Option<Outbox<S>>, AllocError>
    requires { IsAtRest conn }
{
    Ok(answer(Outbox::migrate(alloc, conn), OutboxFault::Memory)?.ok())
}

/// Whether a migration is refused because the outbox has no earlier form.
pub(crate) fn migrate_again<S: Alter + Drop>(
    alloc: Global,
    conn: Connection<S>,
) -> Result<Option<Connection<S>>, AllocError>
    requires { IsAtRest conn }
{
    refused(
        Outbox::migrate_or_back(alloc, conn),
        OutboxFault::NotOurs,
        OutboxFault::Memory,
    )
}

/// Whether the outbox has the entries as they were, and no other.
fn is_kept<S: Alter>(outbox: &mut Outbox<S>) -> Result<bool, AllocError> {
    let has_states = has_states(outbox, &[(1, State::Confirmed(1)), (2, State::Open)])?;
    Ok(has_states && is_confirmed(outbox)?)
}

/// Whether entry 1 is the earlier one, which replaces nothing.
fn is_confirmed<S: Alter>(outbox: &mut Outbox<S>) -> Result<bool, AllocError> {
    match first_entry(outbox)? {
        Some(entry) => Ok(
            entry.id == 1
                && entry.key.as_str() == "k-1"
                && entry.target.is_none()
                && entry.body.as_slice() == NO_FACTS
                && entry.state == State::Confirmed(1),
        ),
        None => Ok(false),
    }
}
