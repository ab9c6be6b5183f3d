//! The refusals of the system and of the database as the programs name them.

ghost use Rattle.std.specs.Prelude.{◌≡◌, false};
ghost use Rattle.database_places.specs.Faults.{database_fault, is_absence};

use command_line::DatabaseFault;
use sqlite::{Error, ErrorCode};
use sqlite_std_file::OpenError;
use std::io::{self, ErrorKind};

pub(crate) fn fault_of_files(error: &OpenError) -> DatabaseFault
    ensures { is_absence result ≡ false }
{
    match error {
        OpenError::OutOfMemory => DatabaseFault::Memory,
        OpenError::Busy => DatabaseFault::Busy,
        OpenError::HotJournal => DatabaseFault::Journal,
        OpenError::Io(error) => fault_of_io(error),
    }
}

pub(crate) fn fault_of_io(error: &io::Error) -> DatabaseFault
    ensures { is_absence result ≡ false }
{
    match error.kind() {
        ErrorKind::OutOfMemory => DatabaseFault::Memory,
        ErrorKind::PermissionDenied => DatabaseFault::Denied,
        ErrorKind::ReadOnlyFilesystem => DatabaseFault::ReadOnly,
        ErrorKind::IsADirectory => DatabaseFault::Folder,
        ErrorKind::FilesystemLoop => DatabaseFault::Loop,
        ErrorKind::InvalidFilename => DatabaseFault::LongName,
        ErrorKind::NotFound | ErrorKind::NotADirectory => DatabaseFault::NoFolder,
        ErrorKind::StorageFull | ErrorKind::QuotaExceeded => DatabaseFault::Full,
        _ if is_out_of_descriptors(error) => DatabaseFault::Descriptors,
        _ => DatabaseFault::Disk,
    }
}

/// Whether the system gives no more open files, to this program (EMFILE) or to all (ENFILE).
fn is_out_of_descriptors(error: &io::Error) -> bool {
    matches!(error.raw_os_error(), Some(23 | 24))
}

pub(crate) fn fault_of(error: Error) -> DatabaseFault
    ensures told { result ≡ database_fault error }
    ensures there { is_absence result ≡ false }
{
    match error {
        Error::SqliteFailure(ErrorCode::NotADatabase) => DatabaseFault::NotADatabase,
        Error::SqliteFailure(ErrorCode::DatabaseCorrupt) => DatabaseFault::Damaged,
        Error::SqliteFailure(ErrorCode::DatabaseBusy) => DatabaseFault::Busy,
        Error::SqliteFailure(ErrorCode::OutOfMemory) => DatabaseFault::Memory,
        Error::SqliteFailure(ErrorCode::DiskFull) => DatabaseFault::Full,
        _ => DatabaseFault::Disk,
    }
}
