//! What each opening of a program finds.

ghost use Rattle.std.specs.Prelude.{◌≡◌, [], ◌∷◌};
ghost use Rattle.sqlite_disk.specs.Events.{settled};

use crate::file::FoundFile;
use http_server::Log;
use sqlite_disk::{Calls, Files};

/// What each opening of a program finds, in their order: the bytes of the log, and those of the database file. Only
/// clauses read it, and what is proved for any such list is proved for what is really found.
pub type Found = Log<Vec<u8>, Vec<u8>>;

/// The openings of a place so far, and what they and the later ones find.
#[derive(Drop)]
pub struct Openings<'f> {
    found: &'f Found,
    opened: u64,
}

impl<'f> Openings<'f> {
    ghost use Rattle.found_files.specs.Openings.{IsNext};

    /// No opening yet, and those that come find this.
    pub fn new(found: &'f Found) -> Openings<'f>
        ensures found { result.found ≡ found.entry }
        ensures first { result.opened ≡ 0 }
    {
        Openings { found, opened: 0 }
    }

    /// Takes files that were opened now, and got this key, for those of the next opening.
    pub fn next<C: Calls>(&mut self, log: C, db: C, key: u64) -> Files<FoundFile<'f, C>>
        requires log { C.Calls.history log ≡ settled key ∷ [] }
        requires db { C.Calls.history db ≡ settled key ∷ [] }
        ensures { IsNext self.old self.new result }
    {
        let nth = self.opened;
        self.opened = nth.saturating_add(1);
        Files {
            log: FoundFile::new(log, self.found, nth, true, key),
            db: FoundFile::new(db, self.found, nth, false, key),
        }
    }
}
