//! What vectors do with a database in files, which is closed and opened again in between.

ghost use Rattle.std.specs.Prelude.{IfOk, IfSome, IsTrue};
ghost use Rattle.table_rows.specs.Standing.{IsAtRest};

use crate::files::{close, connect, new_files};
use crate::{migration, outbox, outbox_migration, register};
use outbox_core::OutboxFault;
use register_store::OpenFault;
use sqlite::{Alter, Connection, Files};
use sqlite_disk::Disk;
use std::alloc::{AllocError, Global};

/// What a vector does with a database while it is open. If a refusal is expected, it is compared.
#[derive(Clone, Copy)]
pub(crate) enum Visit {
    /// Makes a register, and gives it three times the same request.
    FillRegister,
    /// Opens the register, and finds the one request and no other.
    FindRequest,
    /// Puts another body into the kept row.
    ChangeBody,
    /// Opens the register, and expects the report of the damage to that row.
    OpenDamaged,
    /// Opens a register, and expects that there is no register.
    OpenNone,
    /// Makes a register, and expects that there is one already.
    MakeSecondRegister,
    /// Makes a register of the second form.
    MakeEarlierRegister,
    /// Migrates the register, and asks for the earlier answers and a new one.
    MigrateRegister,
    /// Opens the migrated register, and asks for these answers again.
    OpenMigrated,
    /// Migrates the register, and expects that it has no earlier form.
    MigrateAgain,
    /// Makes an outbox.
    MakeOutbox,
    /// Makes an outbox, and expects that there is one already.
    MakeSecondOutbox,
    /// Makes an outbox of the first form.
    MakeEarlierOutbox,
    /// Migrates the outbox, and finds its entries.
    MigrateOutbox,
    /// Migrates the outbox, and expects that it has no earlier form.
    MigrateOutboxAgain,
}

/// Whether these visits to a new database go as expected, one after another. After each the files are closed, and they
/// are opened again for the next.
pub(crate) fn visits(alloc: Global, visits: &[Visit]) -> Result<bool, AllocError> {
    let mut files = new_files(alloc);
    for visit in visits {
        match files_after(alloc, files, *visit)? {
            Some(left) => files = left,
            None => return Ok(false),
        }
    }
    Ok(true)
}

/// The files after a visit, if it went as expected.
fn files_after<D: Disk + Drop>(
    alloc: Global,
    files: Files<D>,
    visit: Visit,
) -> Result<Option<Files<D>>, AllocError>
    requires { IsTrue (D.Disk.is_usable files.log) × IsTrue (D.Disk.is_usable files.db) }
    ensures { IfOk result (λ left.
        IfSome left (λ files. IsTrue (D.Disk.is_usable files.log) × IsTrue (D.Disk.is_usable files.db))) }
{
    let Some(conn) = connect(alloc, files)? else {
        return Ok(None);
    };
    match visited(alloc, conn, visit)? {
        Some(conn) => close(conn),
        None => Ok(None),
    }
}

/// The connection after a visit, if that went as expected.
fn visited<S: Alter + Drop>(
    alloc: Global,
    conn: Connection<S>,
    visit: Visit,
) -> Result<Option<Connection<S>>, AllocError>
    requires { IsAtRest conn }
{
    match visit {
        Visit::FillRegister => register::fill(alloc, conn),
        Visit::FindRequest => register::find(alloc, conn),
        Visit::ChangeBody => register::change_body(conn),
        Visit::OpenDamaged => register::refuse(alloc, conn, OpenFault::Damaged { row: 1 }),
        Visit::OpenNone => register::refuse(alloc, conn, OpenFault::NotOurs),
        Visit::MakeSecondRegister => register::make_second(alloc, conn),
        Visit::MakeEarlierRegister => migration::make_earlier(conn),
        Visit::MigrateRegister => migration::migrate(alloc, conn),
        Visit::OpenMigrated => migration::open(alloc, conn),
        Visit::MigrateAgain => migration::migrate_again(alloc, conn),
        Visit::MakeOutbox => outbox::make(alloc, conn),
        Visit::MakeSecondOutbox => outbox::refuse(alloc, conn, "ACME", OutboxFault::Taken),
        Visit::MakeEarlierOutbox => outbox_migration::make_earlier(conn),
        Visit::MigrateOutbox => outbox_migration::migrate(alloc, conn),
        Visit::MigrateOutboxAgain => outbox_migration::migrate_again(alloc, conn),
    }
}
