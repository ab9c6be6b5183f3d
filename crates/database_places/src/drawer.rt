//! A place in memory.

ghost use Rattle.std.specs.Prelude.{◌≡◌, [], Some, None, IsTrue};
ghost use Rattle.database_places.specs.Places.{Leaves};

use crate::place::Place;
use command_line::DatabaseFault;
use sqlite::Files;
use sqlite_disk::{Disk, Memory};
use std::alloc::Global;

/// The number by which what is read in memory is hashed.
const SEED: u64 = 1;

/// A disk on which a file can be made.
pub trait Blank: Disk + Drop {
    /// A file of no bytes.
    fn empty(alloc: Global) -> Self
        ensures usable { IsTrue (Self.Disk.is_usable result) }
        ensures bytes { Self.Disk.seen result ≡ [] };
}

impl Blank for Memory {
    fn empty(alloc: Global) -> Memory {
        Memory::new(alloc)
    }
}

/// The files of a database, if there are some.
#[derive(Drop)]
pub struct Drawer<D: Blank> {
    alloc: Global,
    files: Option<Files<D>>,
}

impl<D: Blank> Drawer<D> {
    /// A place in which nothing lies.
    pub fn new(alloc: Global) -> Drawer<D> {
        Drawer { alloc, files: None }
    }
}

impl<D: Blank> Place<D> for Drawer<D> {
    ghost lying = { λ drawer. Some drawer.files };

    ghost file = { λ _. None };

    fn seed(&self) -> Option<u64> {
        Some(SEED)
    }

    fn is_missing(&self) -> bool {
        self.files.is_none()
    }

    // An opening finds out whether files have a database.
    fn is_empty(&self) -> bool {
        false
    }

    fn first_page(&self, alloc: Global) -> Vec<u8> {
        Vec::new(alloc)
    }

    fn len(&self) -> u64 {
        0
    }

    // Both files lie there or none, and an empty log does no harm.
    fn has_log(&self) -> bool {
        true
    }

    fn remove_empty_log(&self) {}

    fn take(&mut self) -> Result<Files<D>, DatabaseFault> {
        match self.files.take() {
            Some(files) => {
                if files.may_be_used() {
                    Ok(files)
                } else {
                    self.files = Some(files);
                    Err(DatabaseFault::Disk)
                }
            }
            None => Ok(Files {
                log: D::empty(self.alloc),
                db: D::empty(self.alloc),
            }),
        }
    }

    fn leave(&mut self, files: Files<D>)
        ensures left { Leaves (Some self.old.files) (Some self.new.files) files }
    {
        self.files = Some(files);
    }
}
