//! What is left of a database in files after a stop: it is changed on a disk of which one file stops at each call in
//! turn, and is opened again from what the disk left.

use crate::databases::{ENOUGH, connect, copies, crashed, fused, lasting, new_files};
use sqlite::{Alter, Connection, FileStore};
use sqlite_disk::{Disk, Files, Fuse, Memory};
use std::alloc::Global;
use std::process::Abort;
use table_rows::StoreFault;

// What needs no disk by name is generic over the store. The rest is generic over the disk, and calls one function of
// the first, since each such call costs much to prove.

/// A change of a database that is tried on a disk that stops.
pub trait Trial {
    /// The database with what it has before the change; `None` if something is refused.
    fn make<S: Alter + Drop>(&self, alloc: Global, conn: Connection<S>) -> Option<Connection<S>>;

    /// The database after the change, and whether that was answered; `None` if it is not opened.
    fn change<S: Alter + Drop>(
        &self,
        alloc: Global,
        conn: Connection<S>,
    ) -> Option<(Connection<S>, bool)>;

    /// The database, and whether it has the rows from before or after the change, and those from after it if that was
    /// answered; `None` if it is not opened.
    fn look<S: Alter + Drop>(
        &self,
        alloc: Global,
        conn: Connection<S>,
        answered: bool,
    ) -> Option<(Connection<S>, bool)>;
}

/// What is done with the database of a trial, from its opening to its close.
#[derive(Clone, Copy)]
enum Step {
    /// It is made.
    Make,
    /// It is changed.
    Change,
    /// It is looked at after the change, which was answered or not.
    Look(bool),
}

/// Which file of a disk stops, the log or else the database, and whether a crash loses then what was not synced.
struct DiskStop {
    stops_log: bool,
    crashes: bool,
}

/// The result of a trial.
#[derive(Clone, Copy, Debug, PartialEq)]
enum End {
    /// The change was answered, and the database has the rows from after it.
    Answered,
    /// The change was not answered, and the database has the rows from before or after it.
    Stopped,
    /// The database was not opened for the change.
    NotOpened,
    /// What the database has before the change was not made.
    NotMade,
    /// The change was not answered, and the close did not report that the disk stopped.
    NotTold,
    /// The database was not opened after the change.
    Lost,
    /// The database has other rows, or was not closed afterwards.
    OtherRows,
    /// The change was answered before any stop came in it.
    NeverStopped,
    /// The change is never answered.
    NeverAnswered,
}

/// The database after a step, and what that comes to: whether a change was answered, or what a look finds is right.
/// `None` if the database is not opened.
fn done<T: Trial, S: Alter + Drop>(
    alloc: Global,
    conn: Connection<S>,
    trial: &T,
    step: Step,
) -> Option<(Connection<S>, bool)> {
    match step {
        Step::Make => Some((trial.make(alloc, conn)?, true)),
        Step::Change => trial.change(alloc, conn),
        Step::Look(answered) => trial.look(alloc, conn, answered),
    }
}

/// The files, whatever the close of the database answers, and why it was refused.
fn close<D: Disk + Drop>(conn: Connection<FileStore<D>>) -> (Files<D>, Option<StoreFault>) {
    match conn.close_files() {
        Ok(files) => (files, None),
        Err((error, store)) => (store.close(), Some(StoreFault::from(error))),
    }
}

/// The files of the database after a step, what `done` comes to in them, and why the close was refused, if it was;
/// `None` if the database is not opened.
fn done_in<T: Trial, D: Disk + Drop>(
    alloc: Global,
    files: Files<D>,
    trial: &T,
    step: Step,
) -> Option<(Files<D>, bool, Option<StoreFault>)> {
    let (conn, is_so) = done(alloc, connect(alloc, files)?, trial, step)?;
    let (files, fault) = close(conn);
    Some((files, is_so, fault))
}

/// The files with what is there before the change, on a disk of which one stops after so many calls; `None` if they
/// are not made.
fn stopping<T: Trial>(
    alloc: Global,
    trial: &T,
    stop: &DiskStop,
    calls: u64,
) -> Option<Files<Fuse<Memory>>> {
    let files = lasting(new_files(alloc));
    let (files, _, fault) = done_in(alloc, files, trial, Step::Make)?;
    if fault.is_some() {
        return None;
    }
    let files = copies(alloc, &files)?;
    if stop.stops_log {
        Some(fused(files, calls, u64::MAX))
    } else {
        Some(fused(files, u64::MAX, calls))
    }
}

/// The files as they are opened again, on a disk that does not stop; `None` if memory is refused.
fn left(alloc: Global, files: Files<Fuse<Memory>>, stop: &DiskStop) -> Option<Files<Fuse<Memory>>> {
    if stop.crashes {
        Some(crashed(files))
    } else {
        Some(lasting(copies(alloc, &files)?))
    }
}

/// Whether these files, which a change left that was answered or not, have the rows that they may have, and are closed;
/// `None` if the database is not opened.
fn is_left<T: Trial>(
    alloc: Global,
    files: Files<Fuse<Memory>>,
    trial: &T,
    stop: &DiskStop,
    answered: bool,
) -> Option<bool> {
    let files = left(alloc, files, stop)?;
    let (_, is_so, fault) = done_in(alloc, files, trial, Step::Look(answered))?;
    Some(is_so && fault.is_none())
}

/// What comes of a change that was answered or not, and left these files.
fn end_after<T: Trial>(
    alloc: Global,
    files: Files<Fuse<Memory>>,
    trial: &T,
    stop: &DiskStop,
    answered: bool,
) -> End {
    match is_left(alloc, files, trial, stop, answered) {
        Some(true) if answered => End::Answered,
        Some(true) => End::Stopped,
        Some(false) => End::OtherRows,
        None => End::Lost,
    }
}

/// What comes of the change if the file stops after so many calls.
fn end_at<T: Trial>(alloc: Global, trial: &T, stop: &DiskStop, calls: u64) -> End {
    let Some(files) = stopping(alloc, trial, stop, calls) else {
        return End::NotMade;
    };
    let Some((files, answered, fault)) = done_in(alloc, files, trial, Step::Change) else {
        return End::NotOpened;
    };
    if answered || fault == Some(StoreFault::Store) {
        end_after(alloc, files, trial, stop, answered)
    } else {
        End::NotTold
    }
}

/// Stops the file after 0, 1, 2, .. calls, until the change is answered: a stop is expected before that, in the change
/// or, of the database file, in the opening.
fn end_of<T: Trial>(alloc: Global, trial: &T, stop: &DiskStop) -> End {
    let mut is_stopped = false;
    for calls in 0..ENOUGH {
        match end_at(alloc, trial, stop, calls) {
            End::NotOpened => is_stopped = is_stopped || !stop.stops_log,
            End::Stopped => is_stopped = true,
            End::Answered if !is_stopped => return End::NeverStopped,
            end => return end,
        }
    }
    End::NeverAnswered
}

/// Each file, and with a crash and without.
static STOPS: [DiskStop; 4] = [
    DiskStop {
        stops_log: true,
        crashes: true,
    },
    DiskStop {
        stops_log: true,
        crashes: false,
    },
    DiskStop {
        stops_log: false,
        crashes: true,
    },
    DiskStop {
        stops_log: false,
        crashes: false,
    },
];

/// Asserts that a change is answered, if each file stopped at each call before, and left what it may.
pub fn hold<T: Trial>(rt: &impl Abort, alloc: Global, trial: &T) {
    for stop in &STOPS {
        assert_eq!(rt; end_of(alloc, trial, stop), End::Answered);
    }
}
