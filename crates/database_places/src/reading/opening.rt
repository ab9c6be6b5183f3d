//! The files of one name are opened for reading alone.

ghost use Rattle.std.specs.Prelude.{◌≡◌, IfOk, OnErr};
ghost use Rattle.found_files.specs.Openings.{IsNext};
ghost use Rattle.database_places.specs.ReadOnly.{IsSettled};

use crate::reading::ReadingFile;
use crate::reading::read_only::ReadOnlyFile;
use found_files::Openings;
use os::RangeLock;
use sqlite_disk::Files;
use sqlite_std_file::OpenError;
use std::fs;
use std::hash::{BuildHasher, RandomState};
use std::io::{self, Read};
use std::os::fd::AsRawFd;
use std::os::unix::fs::MetadataExt;

/// Where SQLite locks a database file: its pending, reserved and shared locks.
const LOCKED_FROM: u64 = 1 << 30;

const LOCKED_BYTES: u64 = 512;

/// Opens the database file at `path` for reading, and takes over the log beside it, all of it in memory. Nothing is
/// made and nothing is written: what is written to the files that are given stays in memory, and ends with them.
/// Programs that read it so may have a database at once, and none that writes: it is busy for each of the others until
/// the database file is dropped. The key of their digests is drawn at random.
pub(crate) fn open_for_reading<'f>(
    rt: &HostRuntime,
    path: &str,
    openings: &mut Openings<'f>,
) -> Result<Files<ReadingFile<'f>>, OpenError>
    ensures next { IfOk result (IsNext openings.old openings.new) }
    ensures refused { OnErr result (openings.new ≡ openings.old) }
{
    // As in SQLite, the files lie where a link leads, and no link is followed after that.
    let real = fs::canonicalize(rt, path)?;
    let db = open_named(rt, real.as_str())?;
    lock(&db)?;
    if has_hot_journal(
        rt,
        format!(in rt.alloc(); "{}-journal", real.as_str())?.as_str(),
    )? {
        return Err(OpenError::HotJournal);
    }
    let key = RandomState::new(rt)?.hash_one(&0u8);
    // The log is read whole before the file. So a `sqlite3` that copies it into the file meanwhile
    // changes nothing of what is read.
    let log = read_log(
        rt,
        format!(in rt.alloc(); "{}-wal", real.as_str())?.as_str(),
        key,
    )?;
    let db = ReadOnlyFile::new(rt.alloc(), db, key)?;
    Ok(openings.next(log, db, key))
}

/// Opens a regular file with one name that is no link, for reading.
fn open_named(rt: &HostRuntime, path: &str) -> Result<fs::File, OpenError> {
    if !fs::symlink_metadata(rt, path)?.is_file() {
        return Err(OpenError::Io(io::ErrorKind::Unsupported.into()));
    }
    let file = fs::File::open(rt, path)?;
    let (found, named) = (file.metadata()?, fs::symlink_metadata(rt, path)?);
    let is_named = found.dev() == named.dev() && found.ino() == named.ino();
    if !is_named || !found.is_file() || found.nlink() != 1 {
        return Err(OpenError::Io(io::ErrorKind::Unsupported.into()));
    }
    Ok(file)
}

/// Takes the lock of a reader, or says that another program has the database. The lock ends with the file.
fn lock(file: &fs::File) -> Result<(), OpenError> {
    if os::try_lock_range(
        file.as_raw_fd(),
        RangeLock::Shared,
        LOCKED_FROM,
        LOCKED_BYTES,
    ) == 0
    {
        return Ok(());
    }
    let error = io::Error::from_raw_os_error(os::errno());
    if error.kind() == io::ErrorKind::WouldBlock {
        Err(OpenError::Busy)
    } else {
        Err(OpenError::Io(error))
    }
}

/// Takes over the log of this name: all its bytes, and none if there is none.
fn read_log(rt: &HostRuntime, path: &str, key: u64) -> Result<ReadOnlyFile, OpenError>
    ensures { IfOk result (IsSettled key) }
{
    let mut bytes = Vec::new(rt.alloc());
    match fs::symlink_metadata(rt, path) {
        Ok(_) => {
            open_named(rt, path)?.read_to_end(&mut bytes)?;
        }
        Err(error) if error.kind() == io::ErrorKind::NotFound => {}
        Err(error) => return Err(OpenError::Io(error)),
    }
    Ok(ReadOnlyFile::of_bytes(rt.alloc(), bytes.as_slice(), key)?)
}

/// A journal that is missing, is empty or begins with a zero has nothing to play back. Anything there but a regular
/// file is refused too.
fn has_hot_journal(rt: &HostRuntime, path: &str) -> io::Result<bool> {
    match fs::symlink_metadata(rt, path) {
        Ok(found) if found.is_file() => {}
        Ok(_) => return Ok(true),
        Err(error) if error.kind() == io::ErrorKind::NotFound => return Ok(false),
        Err(error) => return Err(error),
    }
    let mut journal = fs::File::open(rt, path)?;
    let mut first = [0];
    Ok(journal.read(&mut first)? == 1 && first[0] != 0)
}
