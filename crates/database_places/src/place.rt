//! A place in which the files of a database lie.

ghost use Rattle.std.specs.Prelude.{◌≡◌, ℕ, false, IsTrue, IfOk, IfErr, List, Option};
ghost use Rattle.sqlite_disk.specs.declared.Files.{Files};
ghost use Rattle.database_places.specs.Faults.{is_absence};
ghost use Rattle.database_places.specs.Places.{TellsMissing, TellsEmpty, Takes, Leaves};

use command_line::DatabaseFault;
use sqlite::Files;
use sqlite_disk::Disk;
use std::alloc::Global;

/// A place in which the files of one database lie: the database file, and the log beside it. What opens and closes
/// databases is written over any such place, so that it is proved once, and not for the files of the system.
pub trait Place<D: Disk + Drop> {
    // If it is known what lies there: the files, if there are some.
    ghost lying: { Self → Option (Option (Files D)) };

    // The name of the database file, if it has one in the file system.
    ghost file: { Self → Option (List ℕ) };

    /// A number by which what is read there is hashed, or None if the system gives none. It is drawn at random, so that
    /// nobody can make a file whose pages all have one hash.
    fn seed(&self) -> Option<u64>;

    /// Whether there is no database file.
    fn is_missing(&self) -> bool
        ensures { TellsMissing (lying self.now) result };

    /// Whether the database file is there and has no bytes, and no database is in the log beside it.
    fn is_empty(&self) -> bool
        ensures { TellsEmpty D.Disk (lying self.now) result };

    /// The first bytes of the database file, up to the page of a new file; none if they cannot be read. To be called
    /// while the files are not taken.
    fn first_page(&self, alloc: Global) -> Vec<u8>;

    /// How many bytes the database file has, and 0 if that is not known.
    fn len(&self) -> u64;

    /// Whether a log lies beside the database file.
    fn has_log(&self) -> bool;

    /// Removes the log beside the database file, if nothing is in it. To be called while the files are taken.
    fn remove_empty_log(&self);

    /// Takes the files out. Those that are missing are made.
    fn take(&mut self) -> Result<Files<D>, DatabaseFault>
        ensures log { IfOk result (λ files. IsTrue (D.Disk.is_usable files.log)) }
        ensures database { IfOk result (λ files. IsTrue (D.Disk.is_usable files.db)) }
        ensures taken { Takes D.Disk (lying self.old) (lying self.new) result }
        ensures made { IfErr result (λ fault. is_absence fault ≡ false) }
        ensures named { file self.new ≡ file self.old };

    /// Puts files in, which may be taken again then, also by another program.
    fn leave(&mut self, files: Files<D>)
        ensures left { Leaves (lying self.old) (lying self.new) files }
        ensures named { file self.new ≡ file self.old };
}
