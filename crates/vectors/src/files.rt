//! Databases in files, on disks in memory.

ghost use Rattle.std.specs.Prelude.{IfOk, IfSome, IsTrue};
ghost use Rattle.sqlite_disk.specs.Memory.{memory_is_usable};
ghost use Rattle.table_rows.specs.Standing.{IsAtRest};

use crate::refusal::answer;
use sqlite::{Alter, Connection, FileStore, Files, Options};
use sqlite_disk::{Disk, Memory};
use std::alloc::{AllocError, Global};
use table_rows::Cause;

/// The files of a database that is new.
pub(crate) fn new_files(alloc: Global) -> Files<Memory>
    ensures { IsTrue (memory_is_usable result.log) × IsTrue (memory_is_usable result.db) }
{
    Files {
        log: Memory::new(alloc),
        db: Memory::new(alloc),
    }
}

/// A connection to the database that is in these files, if it is opened.
pub(crate) fn connect<D: Disk + Drop>(
    alloc: Global,
    files: Files<D>,
) -> Result<Option<Connection<FileStore<D>>>, AllocError>
    requires log { IsTrue (D.Disk.is_usable files.log) }
    requires db { IsTrue (D.Disk.is_usable files.db) }
    ensures { IfOk result (λ opened. IfSome opened IsAtRest) }
{
    match Connection::open_files(alloc, files, Options::new(1)) {
        Ok(conn) => Ok(Some(conn)),
        Err((error, _)) => {
            unless_memory(error)?;
            Ok(None)
        }
    }
}

/// The files of a connection, if it is closed.
pub(crate) fn close<D: Disk + Drop>(
    conn: Connection<FileStore<D>>,
) -> Result<Option<Files<D>>, AllocError>
    ensures { IfOk result (λ closed.
        IfSome closed (λ files. IsTrue (D.Disk.is_usable files.log) × IsTrue (D.Disk.is_usable files.db))) }
{
    match conn.close_files() {
        Ok(files) => Ok(Some(files)),
        Err((error, _)) => {
            unless_memory(error)?;
            Ok(None)
        }
    }
}

/// Refuses an error that came since memory was refused.
fn unless_memory(error: sqlite::Error) -> Result<(), AllocError> {
    match Cause::from(error) {
        Cause::Memory => Err(AllocError),
        Cause::Disk | Cause::Other => Ok(()),
    }
}

/// Runs statements, and says whether each was made.
pub(crate) fn execute<S: Alter>(conn: &mut Connection<S>, sql: &str) -> Result<bool, AllocError> {
    let outcome = conn.execute_batch(sql).map_err(Cause::from);
    Ok(answer(outcome, Cause::Memory)?.is_ok())
}
