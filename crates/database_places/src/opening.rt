//! The database that lies in a place is opened.

ghost use Rattle.std.specs.Prelude.{◌≡◌, true, false, IfOk, IfErr};
ghost use Rattle.database_places.specs.Opening.{untouched};
ghost use Rattle.table_rows.specs.Standing.{IsAtRest};
ghost use Rattle.database_places.specs.Opening.{OpensPlace, is_found};
ghost use Rattle.database_places.specs.Places.{KeepsLying};

use crate::fault::fault_of;
use crate::place::Place;
use command_line::DatabaseFault;
use sqlite::{Connection, FileStore, Options};
use sqlite_disk::Disk;
use std::alloc::Global;

/// How many pages of a file are kept in memory at most once they were read, while it is served: 32 MiB. A register of
/// 100,000 small reports takes 4,400 pages, and with the 2,000 of the library each look-up in it would read one.
const MOST_PAGES: u64 = 8_192;

/// How many pages a command that ends at once keeps at most: 8 MiB. It goes through the tables in the order of their
/// keys, and so needs most pages once.
const MOST_PAGES_ONCE: u64 = 2_048;

/// Pages that are kept beside those that a file has: a report of 1 MiB takes 256 of them, and its facts as many.
const SPARE_PAGES: u64 = 1_024;

/// The bytes of a page of a new file.
pub(crate) const PAGE_LEN: usize = 4_096;

/// How many pages of a file are kept in memory. Their room is taken at once, so that a command on a small file ends
/// sooner with few.
#[derive(Clone, Copy)]
pub enum PageCache {
    /// As many as the file has and some more, up to a few: for a command that ends at once.
    OfTheFile,
    /// The most: for a file that grows while it is served.
    Largest,
}

/// How the database of a place comes to be open.
#[derive(Clone, Copy)]
pub enum Opening {
    /// It is there.
    Found(PageCache),
    /// It is there, or is made if the file is missing or empty.
    Made(PageCache),
}

/// Why a database was not opened.
#[derive(Clone, Copy, Debug)]
pub struct Unopened {
    pub fault: DatabaseFault,
    /// Whether its files were taken out of their place. They lie there again as the opening left them.
    pub was_taken: bool,
}

impl From<DatabaseFault> for Unopened {
    ghost from_gives = { λ fault it. it ≡ untouched fault };

    /// Its files were not taken.
    fn from(fault: DatabaseFault) -> Unopened {
        Unopened {
            fault,
            was_taken: false,
        }
    }
}

/// Opens the database that lies in a place. A file that is not there, or is empty, gets a database without tables if
/// one is to be made; otherwise it is not made, or stays empty. A refusal leaves the files in the place, and beside a
/// file that is no database it leaves no new log. Its fault does not depend on the bytes of the file.
pub fn open<D: Disk + Drop, P: Place<D>>(
    alloc: Global,
    place: &mut P,
    opening: Opening,
) -> Result<Connection<FileStore<D>>, Unopened>
    ensures rest { IfOk result IsAtRest }
    ensures opens { OpensPlace D.Disk (is_found opening) (P.lying place.old) (P.lying place.new) result }
{
    match opening {
        Opening::Found(cache) => find(alloc, place, cache),
        Opening::Made(cache) => make(alloc, place, cache),
    }
}

/// Opens the database of a file that is there and has bytes.
fn find<D: Disk + Drop, P: Place<D>>(
    alloc: Global,
    place: &mut P,
    cache: PageCache,
) -> Result<Connection<FileStore<D>>, Unopened>
    ensures rest { IfOk result IsAtRest }
    ensures opens { OpensPlace D.Disk true (P.lying place.old) (P.lying place.new) result }
{
    if place.is_missing() {
        return Err(Unopened::from(DatabaseFault::Missing));
    }
    if place.is_empty() {
        return Err(Unopened::from(DatabaseFault::Empty));
    }
    make(alloc, place, cache)
}

/// Opens the database of a file, which is made if it is not there.
fn make<D: Disk + Drop, P: Place<D>>(
    alloc: Global,
    place: &mut P,
    cache: PageCache,
) -> Result<Connection<FileStore<D>>, Unopened>
    ensures rest { IfOk result IsAtRest }
    ensures opens { OpensPlace D.Disk false (P.lying place.old) (P.lying place.new) result }
{
    let options = options(place.seed(), pages(cache, place.len()))?;
    let had_log = place.has_log();
    let files = place.take()?;

    // By its files, and not by its path: so `options` says how many pages stay in memory.
    // A file that is new gets the sums of SQLite's cksumvfs, by which the next opening finds a changed byte.
    match Connection::open_files_with(alloc, files, options, true) {
        Ok(conn) => Ok(conn),
        Err((error, left)) => {
            place.leave(left.into_files());
            remove_new_log(place, had_log);
            Err(Unopened {
                fault: fault_of(error),
                was_taken: true,
            })
        }
    }
}

/// Removes the empty log that an opening made beside a file that is not ours, unless there was a log before. The files
/// are taken for that, so that no other program has them.
pub fn remove_new_log<D: Disk + Drop, P: Place<D>>(place: &mut P, had_log: bool)
    ensures { KeepsLying (P.lying place.old) (P.lying place.new) }
{
    if had_log {
        return;
    }
    if let Ok(files) = place.take() {
        place.remove_empty_log();
        place.leave(files);
    }
}

/// How many pages are kept of a file of so many bytes.
fn pages(cache: PageCache, len: u64) -> usize {
    let pages = match cache {
        PageCache::OfTheFile => MOST_PAGES_ONCE.min(len / PAGE_LEN as u64 + SPARE_PAGES),
        PageCache::Largest => MOST_PAGES,
    };
    pages as usize
}

/// How the files are read and written, with so many pages kept.
fn options(seed: Option<u64>, pages: usize) -> Result<Options, DatabaseFault>
    ensures { IfErr result (λ fault. fault ≡ DatabaseFault.Disk) }
{
    match seed {
        Some(seed) => Ok(Options {
            cache_pages: pages,
            ..Options::new(seed)
        }),
        None => Err(DatabaseFault::Disk),
    }
}
