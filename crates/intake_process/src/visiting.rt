//! A visit to the register that lies in a place: it is opened, an errand to it is done, and it is closed.

ghost use Rattle.std.specs.Prelude.{◌≡◌, None};
ghost use Rattle.sqlite_disk.specs.declared.Files.{Files as Pair};
ghost use Rattle.database_places.specs.Places.{Leaves};
ghost use Rattle.intake_process.specs.Fault.{is_refused};
ghost use Rattle.intake_process.specs.Process.{parts};
ghost use Rattle.intake_process.specs.Visits.{IsLeftIn, VisitsPlace, VisitsRegister, is_doubtful, is_unsure, outputs};

use crate::errand::run_errand;
use crate::fault::{is_of_others, is_refusal, leaves_doubt};
use crate::process::IntakeProcess;
use crate::tasks::checking::CheckProgress;
use crate::tasks::errand::Errand;
use database_places::{
    Holding, Opening, PageCache, Place, close, give_up, held_in, open, remove_new_log,
};
use register_extracts::Why;
use register_pages::Folder;
use sqlite::{Connection, Error, FileStore};
use sqlite_disk::Disk;
use std::alloc::Global;
use std::io::Write;

/// What came of a visit to a register.
#[derive(Drop)]
pub struct Visited {
    /// What came of the errand.
    pub done: Result<(), Why>,
    /// What the database holds; `Nothing` if the files gave none.
    pub holding: Holding,
    /// Why what was committed is not all in the database file, but in the log still, if it isn't.
    pub closed: Result<(), Error>,
    /// Whether the files were taken out of their place. They lie there again.
    pub was_taken: bool,
}

impl Visited {
    /// Whether what lies in the place may be what a crash leaves.
    fn is_doubtful(&self) -> bool
        ensures { result ≡ is_doubtful self.now }
    {
        is_unsure(self.was_taken, &self.done) || self.closed.is_err()
    }
}

/// Whether an errand that came out like this leaves doubt of what lies in the place, from which the files were taken or
/// not.
fn is_unsure(was_taken: bool, done: &Result<(), Why>) -> bool
    ensures { result ≡ is_unsure was_taken done.now }
{
    match done {
        Ok(()) => false,
        Err(why) => leaves_doubt(was_taken, *why),
    }
}

/// Whether an errand came out like this because the database is not a register.
fn came_to_others(done: &Result<(), Why>) -> bool {
    match done {
        Ok(()) => false,
        Err(why) => is_of_others(*why),
    }
}

/// Whether an errand came out like this because no register was opened.
fn is_refused(done: &Result<(), Why>) -> bool
    ensures { result ≡ is_refused done.now }
{
    match done {
        Ok(()) => false,
        Err(why) => is_refusal(*why),
    }
}

/// Leaves the files of a connection in a place after an errand that came out like this: closed, or given up if it was
/// refused. No new log is left beside a file that is not a register.
fn leave<D: Disk + Drop, P: Place<D>>(
    place: &mut P,
    conn: Connection<FileStore<D>>,
    done: &Result<(), Why>,
    had_log: bool,
) -> Result<(), Error>
    ensures { (files : Pair D) × Leaves (P.lying place.old) (P.lying place.new) files
        × IsLeftIn (is_refused done.now) conn files result }
{
    if !is_refused(done) {
        return close(place, conn);
    }
    give_up(place, conn);
    if came_to_others(done) {
        remove_new_log(place, had_log);
    }
    Ok(())
}

/// Opens the database that lies in a place, does an errand to the register that it is, and closes it.
fn visit_place<D: Disk + Drop, P: Place<D>, G: CheckProgress, F: Folder, O: Write>(
    alloc: Global,
    place: &mut P,
    errand: Errand<'_>,
    progress: &mut G,
    folder: &mut F,
    output: &mut O,
) -> Visited
    ensures { VisitsPlace D.Disk errand.entry (outputs (O.contents output.old) (F.pages folder.old))
        (outputs (O.contents output.new) (F.pages folder.new)) (P.lying place.old) (P.lying place.new) result }
{
    let had_log = place.has_log();
    match open(alloc, place, Opening::Found(PageCache::OfTheFile)) {
        Ok(conn) => {
            // It prints before the files are closed, since what it did is durable by then.
            let (left, done) = run_errand(alloc, conn, errand, progress, folder, output);
            let holding = held_in(&left);
            let closed = leave(place, left, &done, had_log);
            Visited {
                done,
                holding,
                closed,
                was_taken: true,
            }
        }
        Err(unopened) => Visited {
            done: Err(Why::Files(unopened.fault)),
            holding: Holding::Nothing,
            closed: Ok(()),
            was_taken: unopened.was_taken,
        },
    }
}

impl<D: Disk + Drop, P: Place<D> + Drop> IntakeProcess<D, P> {
    /// Opens the register, which is closed, does an errand to it, and closes it. A refusal leaves the files in the
    /// place, and leaves the database in them as it was, whatever that is, if it was not to be migrated. `progress`
    /// learns how far a check is, and pages go into the folder.
    pub fn visit<G: CheckProgress, F: Folder, O: Write>(
        &mut self,
        alloc: Global,
        errand: Errand<'_>,
        progress: &mut G,
        folder: &mut F,
        output: &mut O,
    ) -> Visited
        requires { self.old.intake ≡ None }
        ensures { VisitsRegister errand.entry (outputs (O.contents output.old) (F.pages folder.old))
            (outputs (O.contents output.new) (F.pages folder.new)) (parts P.lying self.old) (parts P.lying self.new)
            result }
    {
        let visited = visit_place(alloc, &mut self.place, errand, progress, folder, output);
        if visited.is_doubtful() {
            self.is_certain = false;
        }
        visited
    }
}
