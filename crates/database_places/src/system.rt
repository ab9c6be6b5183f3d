//! A place in the file system.

ghost use Rattle.std.specs.Prelude.{◌≡◌, Some, None, false, IsTrue, IfOk, IfErr, OnErr};
ghost use Rattle.found_files.specs.Openings.{IsNext};
ghost use Rattle.database_places.specs.Faults.{is_absence};
ghost use Rattle.database_places.specs.Places.{Leaves};

use crate::fault::{fault_of_files, fault_of_io};
use crate::opening::PAGE_LEN;
use crate::place::Place;
use command_line::{DatabaseFault, read_up_to};
use found_files::{Found, FoundFile, NotedFile, Openings};
use http_wire::Device;
use sqlite::{File, Files, Unknown};
use sqlite_disk::Disk;
use sqlite_std_file::OpenError;
use std::alloc::{AllocError, Global};
use std::fs;
use std::hash::{BuildHasher, RandomState};
use std::io::{self, ErrorKind};

/// A shorter log has nothing in it: its head takes 32 bytes, and a frame 24 and a page, which has 512 at least
/// (SQLite's file format, section 4.1).
const LEAST_LOG: u64 = 568;

/// A file of the system, over what was found in it.
pub type SystemFile<'f> = FoundFile<'f, NotedFile<File>>;

/// The file of this name, and the log beside it. The name is a path, also `:memory:` and one that begins with `file:`.
/// What lies there is known to the system alone.
#[derive(Drop)]
pub struct SystemPlace<'a, 'r> {
    pub(crate) rt: &'r HostRuntime,
    pub(crate) name: &'a str,
    pub(crate) openings: Openings<'r>,
}

impl<'a, 'r> SystemPlace<'a, 'r> {
    /// The place of the file of this name, whose openings find this.
    pub fn new(rt: &'r HostRuntime, name: &'a str, found: &'r Found) -> SystemPlace<'a, 'r>
        ensures file { result.name ≡ name.entry }
        ensures found { result.openings.found ≡ found.entry }
        ensures first { result.openings.opened ≡ 0 }
    {
        SystemPlace {
            rt,
            name,
            openings: Openings::new(found),
        }
    }
}

impl<'r> Place<SystemFile<'r>> for SystemPlace<'_, 'r> {
    ghost lying = { λ _. None };

    ghost file = { λ place. Some place.name.now };

    fn seed(&self) -> Option<u64> {
        match RandomState::new(self.rt) {
            Ok(state) => Some(state.hash_one(&0u8)),
            Err(_) => None,
        }
    }

    fn is_missing(&self) -> bool {
        matches!(fs::exists(self.rt, self.name), Ok(false))
    }

    fn is_empty(&self) -> bool {
        match fs::metadata(self.rt, self.name) {
            Ok(found) => found.is_file() && found.len() == 0 && is_log_empty(self.rt, self.name),
            Err(_) => false,
        }
    }

    fn first_page(&self, alloc: Global) -> Vec<u8> {
        let Ok(file) = fs::File::open(self.rt, self.name) else {
            return Vec::new(alloc);
        };
        match read_up_to(alloc, &mut Device::new(file), PAGE_LEN) {
            Ok(page) => page,
            Err(_) => Vec::new(alloc),
        }
    }

    fn len(&self) -> u64 {
        match fs::metadata(self.rt, self.name) {
            Ok(found) => found.len(),
            Err(_) => 0,
        }
    }

    fn has_log(&self) -> bool {
        match log_name(self.rt, self.name) {
            Ok(log) => !matches!(fs::exists(self.rt, log.as_str()), Ok(false)),
            Err(_) => true,
        }
    }

    fn remove_empty_log(&self) {
        // If it can't be removed, one more empty file does no harm.
        let _ = remove_if_empty(self.rt, self.name);
    }

    fn take(&mut self) -> Result<Files<SystemFile<'r>>, DatabaseFault>
        ensures log { IfOk result (λ files. IsTrue (⟦<SystemFile<'r> as Disk>⟧.is_usable files.log)) }
        ensures database { IfOk result (λ files. IsTrue (⟦<SystemFile<'r> as Disk>⟧.is_usable files.db)) }
        ensures next { IfOk result (IsNext self.old.openings self.new.openings) }
        ensures refused { OnErr result (self.new.openings ≡ self.old.openings) }
        ensures made { IfErr result (λ fault. is_absence fault ≡ false) }
        ensures named { self.new.name ≡ self.old.name }
    {
        // The type says of the files that they held nothing. What they hold is said of those that are given instead.
        match sqlite_std_file::open(self.rt, self.name, Unknown) {
            Ok(files) => {
                let key = files.db.key();
                let log = NotedFile::new(files.log, key);
                let db = NotedFile::new(files.db, key);
                Ok(self.openings.next(log, db, key))
            }
            Err(OpenError::Io(error)) if error.kind() == ErrorKind::Unsupported => {
                Err(fault_of_name(self.rt, self.name))
            }
            Err(error) => Err(fault_of_files(&error)),
        }
    }

    // Files that are let go are closed.
    fn leave(&mut self, files: Files<SystemFile<'r>>)
        ensures left { Leaves None None files.entry }
        ensures named { self.new.name.now ≡ self.old.name.now }
    {
        drop(files);
    }
}

/// The name of the log beside the file of this name, as SQLite has it.
fn log_name(rt: &HostRuntime, name: &str) -> Result<String, AllocError> {
    let mut log = String::from_str(rt.alloc(), name)?;
    log.push_str("-wal")?;
    Ok(log)
}

/// Whether no log lies beside the file of this name, or one with nothing in it.
fn is_log_empty(rt: &HostRuntime, name: &str) -> bool {
    let Ok(log) = log_name(rt, name) else {
        return false;
    };
    match fs::metadata(rt, log.as_str()) {
        Ok(found) => found.len() < LEAST_LOG,
        Err(error) => error.kind() == ErrorKind::NotFound,
    }
}

fn remove_if_empty(rt: &HostRuntime, name: &str) -> io::Result<()> {
    let Ok(log) = log_name(rt, name) else {
        return Ok(());
    };
    if fs::metadata(rt, log.as_str())?.len() < LEAST_LOG {
        fs::remove_file(rt, log.as_str())?;
    }
    Ok(())
}

/// What is wrong with a name whose file cannot have a database.
fn fault_of_name(rt: &HostRuntime, name: &str) -> DatabaseFault
    ensures { is_absence result ≡ false }
{
    match fs::metadata(rt, name) {
        Ok(found) if found.is_file() => DatabaseFault::Linked,
        Ok(found) if found.is_dir() => DatabaseFault::Folder,
        Ok(_) => DatabaseFault::NotAFile,
        Err(error) => fault_of_io(&error),
    }
}
