//! The calls on a file, with their answers. No memory holds them: only clauses read them.

ghost use Rattle.std.specs.Prelude.{◌≡◌, List, [], ◌∷◌};
ghost use Rattle.std.specs.Borrow.{ftrue};
ghost use Rattle.sqlite_disk.specs.Events.{Event};
ghost use Rattle.found_files.specs.Note.{event_of};

use std::marker::{Model, PhantomData};

/// What was called, as the kit numbers its events.
pub const SETTLED: u64 = 0;

pub const MEASURED: u64 = 1;

pub const READ: u64 = 2;

pub const WRITTEN: u64 = 3;

pub const CUT: u64 = 4;

pub const FLUSHED: u64 = 5;

pub const TESTED: u64 = 6;

/// The calls so far, the newest first.
#[derive(Drop)]
pub struct Record {
    marker: PhantomData<u8>,
    pub ghost events: { List Event },
}

impl Model for Record {
    ghost also_owns = { λ _. ftrue };
}

impl Record {
    /// No call yet.
    pub fn new() -> Record
        ensures { result.events ≡ [] }
    {
        Record {
            marker: PhantomData,
        }
    }

    /// Notes a call. The numbers are those of an event, with 1 for success, and then a key and a digest if it has them.
    pub fn note(&mut self, _numbers: &[u64], _bytes: &[u8])
        ensures { self.new.events ≡ event_of _numbers.now _bytes.now ∷ self.old.events }
    {}
}
