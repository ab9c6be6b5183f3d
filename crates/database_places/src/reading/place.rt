//! A place in the file system that is only read.

ghost use Rattle.std.specs.Prelude.{◌≡◌, Some, None, false, IsTrue, IfOk, IfErr, OnErr};
ghost use Rattle.found_files.specs.Openings.{IsNext};
ghost use Rattle.database_places.specs.Faults.{is_absence};
ghost use Rattle.database_places.specs.Places.{Leaves};

use crate::place::Place;
use crate::reading::ReadingFile;
use crate::reading::fault::fault_of;
use crate::reading::opening::open_for_reading;
use crate::system::SystemPlace;
use command_line::DatabaseFault;
use found_files::Found;
use sqlite_disk::{Disk, Files};
use std::alloc::Global;
use std::fs::{self, OpenOptions};
use std::io;

/// The file of this name, and the log beside it, which are read and never written: they may lie where nothing may be
/// written. What is written to the files that are taken is seen by whoever has them, and ends as they are left: the
/// name's own files stay as they are, a log with all that is in it too. Nothing is made or removed beside them.
#[derive(Drop)]
pub struct ReadingPlace<'a, 'r> {
    /// The same files, which it does not take.
    system: SystemPlace<'a, 'r>,
}

impl<'a, 'r> ReadingPlace<'a, 'r> {
    /// The place of the file of this name, whose openings find this.
    pub fn new(rt: &'r HostRuntime, name: &'a str, found: &'r Found) -> ReadingPlace<'a, 'r>
        ensures file { result.system.name ≡ name.entry }
        ensures found { result.system.openings.found ≡ found.entry }
        ensures first { result.system.openings.opened ≡ 0 }
    {
        ReadingPlace {
            system: SystemPlace::new(rt, name, found),
        }
    }
}

impl<'r> Place<ReadingFile<'r>> for ReadingPlace<'_, 'r> {
    ghost lying = { λ _. None };

    ghost file = { λ place. Some place.system.name.now };

    fn seed(&self) -> Option<u64> {
        self.system.seed()
    }

    fn is_missing(&self) -> bool {
        self.system.is_missing()
    }

    fn is_empty(&self) -> bool {
        self.system.is_empty()
    }

    fn first_page(&self, alloc: Global) -> Vec<u8> {
        self.system.first_page(alloc)
    }

    fn len(&self) -> u64 {
        self.system.len()
    }

    fn has_log(&self) -> bool {
        self.system.has_log()
    }

    // None was made.
    fn remove_empty_log(&self) {}

    fn take(&mut self) -> Result<Files<ReadingFile<'r>>, DatabaseFault>
        ensures log { IfOk result (λ files. IsTrue (⟦<ReadingFile<'r> as Disk>⟧.is_usable files.log)) }
        ensures database { IfOk result (λ files. IsTrue (⟦<ReadingFile<'r> as Disk>⟧.is_usable files.db)) }
        ensures next { IfOk result (IsNext self.old.system.openings self.new.system.openings) }
        ensures refused { OnErr result (self.new.system.openings ≡ self.old.system.openings) }
        ensures made { IfErr result (λ fault. is_absence fault ≡ false) }
        ensures named { self.new.system.name ≡ self.old.system.name }
    {
        let (rt, name) = (self.system.rt, self.system.name);
        match open_for_reading(rt, name, &mut self.system.openings) {
            Ok(files) => Ok(files),
            Err(error) => Err(fault_of(rt, name, &error)),
        }
    }

    // What was written in memory ends here, and the file is unlocked.
    fn leave(&mut self, files: Files<ReadingFile<'r>>)
        ensures left { Leaves None None files.entry }
        ensures named { self.new.system.name.now ≡ self.old.system.name.now }
    {
        drop(files);
    }
}

/// Whether a log lies beside the database file of this name, and both may be written.
pub(crate) fn has_writable_log(rt: &HostRuntime, name: &str) -> bool {
    match log_name(rt, name) {
        Ok(log) => may_be_written(rt, name) && may_be_written(rt, log.as_str()),
        Err(_) => false,
    }
}

/// The name of the log beside the file of this name, where a link leads.
fn log_name(rt: &HostRuntime, name: &str) -> io::Result<String> {
    let real = fs::canonicalize(rt, name)?;
    Ok(format!(in rt.alloc(); "{}-wal", real.as_str())?)
}

/// Whether there is a regular file of this name that may be written. It is opened for that and left as it is.
fn may_be_written(rt: &HostRuntime, name: &str) -> bool {
    match fs::metadata(rt, name) {
        Ok(found) => found.is_file() && OpenOptions::new().write(true).open(rt, name).is_ok(),
        Err(_) => false,
    }
}
