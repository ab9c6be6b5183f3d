//! A place in memory whose disk refuses at some call, and what is seen of the register that lies there.

ghost use Rattle.std.specs.Prelude.{None};
ghost use Rattle.database_places.specs.Places.{Leaves};

use command_line::DatabaseFault;
use database_places::Place;
use intake_process::{Closed, Observer, Totals, Went};
use sqlite::Files;
use sqlite_disk::{Crash, Fuse, Memory};
use std::alloc::Global;

/// A place in which nothing lies at first. The disk of its files refuses each call after so many of the log, until they
/// are taken again: then it has what was synced, and refuses nothing.
#[derive(Drop)]
pub struct Desk {
    pub alloc: Global,
    pub calls: u64,
    pub files: Option<Files<Fuse<Memory>>>,
}

impl Desk {
    /// The files that lie there, or new ones.
    fn taken(&mut self) -> Files<Fuse<Memory>> {
        match self.files.take() {
            Some(mut files) => {
                files.log.crash();
                files.db.crash();
                files
            }
            None => Files {
                log: Fuse::new(Memory::new(self.alloc), self.calls),
                db: Fuse::new(Memory::new(self.alloc), u64::MAX),
            },
        }
    }
}

impl Place<Fuse<Memory>> for Desk {
    ghost lying = { λ _. None };

    ghost file = { λ _. None };

    fn seed(&self) -> Option<u64> {
        Some(1)
    }

    fn is_missing(&self) -> bool {
        self.files.is_none()
    }

    fn is_empty(&self) -> bool {
        false
    }

    fn first_page(&self, alloc: Global) -> Vec<u8> {
        Vec::new(alloc)
    }

    fn len(&self) -> u64 {
        0
    }

    fn has_log(&self) -> bool {
        true
    }

    fn remove_empty_log(&self) {}

    fn take(&mut self) -> Result<Files<Fuse<Memory>>, DatabaseFault> {
        let files = self.taken();
        if files.may_be_used() {
            Ok(files)
        } else {
            Err(DatabaseFault::Disk)
        }
    }

    fn leave(&mut self, files: Files<Fuse<Memory>>)
        ensures left { Leaves None None files }
    {
        self.files = Some(files);
    }
}

/// Lets a register that was closed be opened again only after so many refusals, and counts.
#[derive(Drop)]
pub struct Reopener {
    pub refusals: u64,
    /// In how many rounds the database refused a call.
    pub failed: u64,
    /// How many requests were kept when the register was closed last.
    pub kept: u64,
}

impl Observer for Reopener {
    ghost answers = { λ _. None };

    fn ready(&mut self, _totals: Totals) {}

    fn may_open(&mut self) -> bool {
        let may = self.refusals == 0;
        self.refusals = self.refusals.saturating_sub(1);
        may
    }

    fn opened(&mut self, _totals: Totals) {}

    fn ended(&mut self, went: Went) {
        if matches!(went, Went::Failed(_)) {
            self.failed = self.failed.saturating_add(1);
        }
    }

    fn closed(&mut self, closed: Closed) {
        self.kept = closed.kept;
    }
}
