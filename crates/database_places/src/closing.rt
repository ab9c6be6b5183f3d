//! A database is closed, and its files are left in a place.

ghost use Rattle.std.specs.Prelude.{OnOk, IfErr};
ghost use Rattle.sqlite_disk.specs.declared.Files.{Files as Pair};
ghost use Rattle.database_places.specs.Closing.{IsClosedIn, IsNotClosed, IsGivenUp};
ghost use Rattle.database_places.specs.Places.{Leaves};

use crate::place::Place;
use sqlite::{Connection, Error, FileStore};
use sqlite_disk::Disk;

/// Closes a connection and leaves its files in a place in any case: with all that was committed in the database file,
/// or with the error for which it isn't all there, but in the log still.
pub fn close<D: Disk + Drop, P: Place<D>>(
    place: &mut P,
    conn: Connection<FileStore<D>>,
) -> Result<(), Error>
    ensures closed { OnOk result ((files : Pair D) × Leaves (P.lying place.old) (P.lying place.new) files
        × IsClosedIn D.Disk conn files) }
    ensures refused { IfErr result (λ error. (files : Pair D)
        × Leaves (P.lying place.old) (P.lying place.new) files × IsNotClosed conn files error) }
{
    match conn.close_files() {
        Ok(files) => {
            place.leave(files);
            Ok(())
        }
        Err((error, store)) => {
            place.leave(store.close());
            Err(error)
        }
    }
}

/// Leaves the files of a connection in a place, and neither reads nor writes them: for a database that is damaged, or
/// another program's. What is in the log stays there.
pub fn give_up<D: Disk + Drop, P: Place<D>>(place: &mut P, conn: Connection<FileStore<D>>)
    ensures { (files : Pair D) × Leaves (P.lying place.old) (P.lying place.new) files × IsGivenUp conn files }
{
    place.leave(conn.into_store().close());
}
