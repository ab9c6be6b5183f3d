//! The refusals of the system as the programs name them. A place that is written names them so too.

ghost use Rattle.std.specs.Prelude.{◌≡◌, false};
ghost use Rattle.database_places.specs.Faults.{is_absence};

use command_line::DatabaseFault;
use sqlite_std_file::OpenError;
use std::fs;
use std::io::{self, ErrorKind};

/// What is wrong with the files of this name, which were not opened for this reason.
pub(crate) fn fault_of(rt: &HostRuntime, name: &str, error: &OpenError) -> DatabaseFault
    ensures { is_absence result ≡ false }
{
    match error {
        OpenError::OutOfMemory => DatabaseFault::Memory,
        OpenError::Busy => DatabaseFault::Busy,
        OpenError::HotJournal => DatabaseFault::Journal,
        OpenError::Io(error) if error.kind() == ErrorKind::Unsupported => fault_of_name(rt, name),
        OpenError::Io(error) => fault_of_io(error),
    }
}

/// What is wrong with a name whose file cannot have a database.
fn fault_of_name(rt: &HostRuntime, name: &str) -> DatabaseFault
    ensures { is_absence result ≡ false }
{
    match fs::metadata(rt, name) {
        Ok(found) if found.is_file() => DatabaseFault::Linked,
        Ok(found) if found.is_dir() => DatabaseFault::Folder,
        Ok(_) => DatabaseFault::NotAFile,
        Err(error) => fault_of_io(&error),
    }
}

fn fault_of_io(error: &io::Error) -> DatabaseFault
    ensures { is_absence result ≡ false }
{
    match error.kind() {
        ErrorKind::OutOfMemory => DatabaseFault::Memory,
        ErrorKind::PermissionDenied => DatabaseFault::Denied,
        ErrorKind::IsADirectory => DatabaseFault::Folder,
        ErrorKind::FilesystemLoop => DatabaseFault::Loop,
        ErrorKind::InvalidFilename => DatabaseFault::LongName,
        ErrorKind::NotFound | ErrorKind::NotADirectory => DatabaseFault::NoFolder,
        _ if is_out_of_descriptors(error) => DatabaseFault::Descriptors,
        _ => DatabaseFault::Disk,
    }
}

/// Whether the system gives no more open files, to this program (EMFILE) or to all (ENFILE).
fn is_out_of_descriptors(error: &io::Error) -> bool {
    matches!(error.raw_os_error(), Some(23 | 24))
}
