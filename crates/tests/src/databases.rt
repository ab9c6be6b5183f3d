//! Databases in memory, and in files on disks in memory, which may stop.

ghost use Rattle.std.specs.Prelude.{IfSome};
ghost use Rattle.table_rows.specs.Standing.{IsAtRest};

use intake_core::Intake;
use register_store::CreateFault;
use sqlite::{Alter, Connection, FileStore, MemStore, Options};
use sqlite_disk::{Crash, Disk, Files, Fuse, Memory};
use std::alloc::Global;

/// More calls than the runs below make of a disk.
pub const ENOUGH: u64 = 1000;

/// A store that a new database may have. What is done with databases is generic over it, and a test names the store
/// once: to call at a concrete store what is generic costs more to prove than the call itself.
pub trait Fresh: Alter + Drop {
    /// A new database, or `None` if memory is refused.
    fn fresh(alloc: Global) -> Option<Connection<Self>>;

    /// An intake that keeps nothing yet, and at most so many keys.
    fn intake(alloc: Global, limit: u32) -> Result<Intake<Self>, CreateFault>;
}

impl Fresh for MemStore {
    fn fresh(alloc: Global) -> Option<Connection<MemStore>> {
        Connection::open_in_memory(alloc).ok()
    }

    fn intake(alloc: Global, limit: u32) -> Result<Intake<MemStore>, CreateFault> {
        Intake::in_memory(alloc, u64::from(limit))
    }
}

/// Files that are empty.
pub fn new_files(alloc: Global) -> Files<Memory> {
    Files {
        log: Memory::new(alloc),
        db: Memory::new(alloc),
    }
}

/// The files on disks that stop after so many calls.
pub fn fused<D: Disk>(files: Files<D>, log: u64, db: u64) -> Files<Fuse<D>> {
    Files {
        log: Fuse::new(files.log, log),
        db: Fuse::new(files.db, db),
    }
}

/// The files on disks that do not stop.
pub fn lasting<D: Disk>(files: Files<D>) -> Files<Fuse<D>> {
    fused(files, u64::MAX, u64::MAX)
}

/// The files as the machine finds them when it comes back.
pub fn crashed<D: Crash>(files: Files<D>) -> Files<D> {
    let mut files = files;
    files.log.crash();
    files.db.crash();
    files
}

/// A file of the same bytes; `None` if memory is refused.
fn copy(alloc: Global, file: &Memory) -> Option<Memory> {
    let mut copy = Memory::new(alloc);
    match copy.write_at(0, file.bytes()) {
        Ok(()) => Some(copy),
        Err(_) => None,
    }
}

/// What is in these files, on disks that do not stop; `None` if memory is refused.
pub fn copies(alloc: Global, files: &Files<Fuse<Memory>>) -> Option<Files<Memory>> {
    Some(Files {
        log: copy(alloc, files.log.inner())?,
        db: copy(alloc, files.db.inner())?,
    })
}

/// A connection to the database that is in these files, or `None` if it is not opened.
pub fn connect<D: Disk + Drop>(alloc: Global, files: Files<D>) -> Option<Connection<FileStore<D>>> {
    if !files.log.may_be_used() || !files.db.may_be_used() {
        return None;
    }
    match Connection::open_files(alloc, files, Options::new(1)) {
        Ok(conn) => Some(conn),
        Err(_) => None,
    }
}

/// The connection at rest, without a limit of steps; `None` if a transaction is under way.
pub fn ready<S: Alter + Drop>(conn: Connection<S>) -> Option<Connection<S>>
    ensures { IfSome result IsAtRest }
{
    let mut conn = conn;
    conn.set_step_limit(None);
    if conn.is_autocommit() {
        Some(conn)
    } else {
        None
    }
}

/// The connection after statements; `None` if one is refused.
pub fn ran<S: Alter + Drop>(conn: Connection<S>, sql: &str) -> Option<Connection<S>> {
    let mut conn = conn;
    match conn.execute_batch(sql) {
        Ok(()) => Some(conn),
        Err(_) => None,
    }
}
