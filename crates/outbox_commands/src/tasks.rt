//! Performs a task, and says how the program ends.

ghost use Rattle.std.specs.Prelude.{◌≡◌, map, string_bytes, Some, None, Ok};
ghost use Rattle.outbox_process.specs.Process.{parts};
ghost use Rattle.outbox_commands.specs.Performing.{PerformsOver, Performs, ended_without};
ghost use Rattle.outbox_commands.specs.Status.{why_status, status_of, status_by};
ghost use Rattle.outbox_commands.specs.Tasks.{MakesOutbox, IsJudged, IsPrinted, MigratesOutbox, Does, is_current};
ghost use Rattle.outbox_commands.specs.Visits.{why_verdict};
ghost use Rattle.outbox_commands.specs.Words.{database_of};

use crate::asked::read;
use crate::errand::{close, open, run_errand};
use crate::fault::{NotDone, verdict_on};
use crate::network::{Network, PeerDial};
use crate::options::{Asked, Task};
use crate::putting::put;
use command_line::{CommandFault, DONE, refuse, show, words};
use database_places::{Place, ReadingPlace, SystemFile, SystemPlace, WaitingPlace, show_verdict};
use finding_lines::lint_reports;
use found_files::Found;
use key_string::is_filer;
use outbox_process::{Beginning, Errand, NotOpened, OutboxProcess, Why};
use sqlite_disk::Disk;
use std::alloc::Global;
use std::io::Write;

/// Makes an outbox of this filer.
fn init<'a, D: Disk + Drop, P: Place<D> + Drop, E: Write>(
    alloc: Global,
    process: &mut OutboxProcess<D, P>,
    name: &'a str,
    filer: &str,
    errors: &mut E,
) -> Result<(), NotDone<'a>>
    requires { process.old.outbox ≡ None }
    ensures { MakesOutbox D.Disk filer.entry (parts P.lying process.old) (parts P.lying process.new)
        (status_by result) }
{
    if !is_filer(filer) {
        return Err(NotDone::Command(CommandFault::Filer));
    }
    if let Err(refusal) = open(alloc, process, Beginning::Made { filer }) {
        return Err(NotDone::of_refusal(refusal, name));
    }
    close(process, name, errors);
    Ok(())
}

/// Prints what a refusal says of the outbox, if it says something, and answers why the task was not done.
fn show_refused<'a, O: Write>(
    alloc: Global,
    refusal: NotOpened,
    name: &'a str,
    output: &mut O,
) -> NotDone<'a>
    ensures { IsJudged (why_verdict refusal.why) (O.contents output.old) (O.contents output.new)
        (why_status refusal.why) (status_of result) }
{
    let Some(verdict) = verdict_on(&refusal.why) else {
        return NotDone::of_refusal(refusal, name);
    };
    match show_verdict(alloc, verdict, "an outbox", output) {
        Ok(()) => NotDone::of_refusal(refusal, name),
        Err(unshown) => NotDone::Command(unshown),
    }
}

/// Whether an outbox that should be migrated was refused since it has this version already.
fn is_current(why: &Why) -> bool
    ensures { result ≡ is_current why.now }
{
    matches!(why, Why::IsCurrent)
}

/// Upgrades an outbox of an earlier version, and prints that; or prints that it has this version already, or the
/// verdict on a database that is no outbox that can be migrated.
fn migrate<'a, D: Disk + Drop, P: Place<D> + Drop, O: Write, E: Write>(
    alloc: Global,
    process: &mut OutboxProcess<D, P>,
    name: &'a str,
    output: &mut O,
    errors: &mut E,
) -> Result<(), NotDone<'a>>
    requires { process.old.outbox ≡ None }
    ensures { MigratesOutbox D.Disk (O.contents output.old) (O.contents output.new) (parts P.lying process.old)
        (parts P.lying process.new) (status_by result) }
{
    if let Err(refusal) = open(alloc, process, Beginning::Migrated) {
        if is_current(&refusal.why) {
            return show_line(output, b"has this version already\n");
        }
        return Err(show_refused(alloc, refusal, name, output));
    }
    // It is printed before the close, since the migration is durable by now.
    let shown = show_line(output, b"migrated\n");
    close(process, name, errors);
    shown
}

/// Prints what became of an outbox that should be migrated.
fn show_line<'a, O: Write>(output: &mut O, line: &[u8]) -> Result<(), NotDone<'a>>
    ensures { IsPrinted (O.contents output.old) (O.contents output.new) line.now 0 (status_by result) }
{
    match show(output, line) {
        Ok(()) => Ok(()),
        Err(fault) => Err(NotDone::Command(fault)),
    }
}

/// Performs a task on the outbox of this process, which is closed. A network makes the connections that it needs. It
/// is written over any place and any network, so that the contract is one for every disk.
pub(crate) fn perform_task<'a, D: Disk + Drop, P: Place<D> + Drop, N: Network, O: Write, E: Write>(
    rt: &HostRuntime,
    process: &mut OutboxProcess<D, P>,
    network: &mut N,
    task: Task<'a>,
    output: &mut O,
    errors: &mut E,
) -> Result<(), NotDone<'a>>
    requires { process.old.outbox ≡ None }
    ensures { Does D.Disk task.entry (N.traffic network.old) (N.traffic network.new) (O.contents output.old)
        (O.contents output.new) (parts P.lying process.old) (parts P.lying process.new) result }
{
    let alloc = rt.alloc();
    let name = task.database();
    match task {
        Task::Init { filer, .. } => init(alloc, process, name, filer, errors),
        Task::Put {
            bodies,
            key,
            target,
            is_strict,
            ..
        } => put(
            rt, process, network, name, &bodies, key, target, is_strict, output, errors,
        ),
        Task::Migrate { .. } => migrate(alloc, process, name, output, errors),
        Task::Send {
            which,
            is_strict,
            ..
        } => {
            let errand = Errand::Send(which);
            run_errand(
                alloc, process, network, name, errand, is_strict, output, errors,
            )
        }
        Task::Ask { id, form, .. } => {
            let errand = Errand::Ask { id, form };
            run_errand(alloc, process, network, name, errand, false, output, errors)
        }
        Task::Status { .. } => {
            let errand = Errand::ShowStates;
            run_errand(alloc, process, network, name, errand, false, output, errors)
        }
        Task::Show {
            entry: Some(id),
            ..
        } => {
            let errand = Errand::ShowEntry(id);
            run_errand(alloc, process, network, name, errand, false, output, errors)
        }
        Task::Show { entry: None, .. } => {
            let errand = Errand::ShowEach;
            run_errand(alloc, process, network, name, errand, false, output, errors)
        }
        Task::Body { entry, .. } => {
            let errand = Errand::ShowBody(entry);
            run_errand(alloc, process, network, name, errand, false, output, errors)
        }
    }
}

/// The disks of the files of the system. A clause reads each lifetime as this one.
type File = SystemFile<'static>;

type ReadingFile = database_places::ReadingFile<'static>;

/// Performs a task on the outbox that lies in the place of its file, which is waited for so many seconds, over the
/// network of its peer, and answers the status.
fn perform_in<D: Disk + Drop, P: Place<D> + Drop, O: Write, E: Write>(
    rt: &HostRuntime,
    task: Task<'_>,
    place: P,
    wait: u32,
    output: &mut O,
    errors: &mut E,
) -> u8
    requires { P.file place ≡ Some (database_of task).now }
    ensures { PerformsOver D.Disk task.entry (P.lying place) (O.contents output.old) (O.contents output.new) result }
{
    let mut network = match PeerDial::new(rt, task.peer()) {
        Ok(network) => network,
        Err(fault) => return fault.tell(errors),
    };
    let mut process = OutboxProcess::new(WaitingPlace::new(rt, place, wait));
    match perform_task(rt, &mut process, &mut network, task, output, errors) {
        Ok(()) => done_but_for(network.lost_receipts(), errors),
        Err(fault) => fault.tell(errors),
    }
}

/// The status of a task that is done, of which this many receipts are missing. If one is, that is reported.
fn done_but_for<E: Write>(lost: u64, errors: &mut E) -> u8
    ensures { result ≡ ended_without lost (Ok tt) }
{
    if lost > 0 {
        return NotDone::Receipts { lost }.tell(errors);
    }
    DONE
}

/// Performs what these words ask for, the program's name first, and answers the status. Files hold at first what was
/// found, and the file of an outbox is opened for writing only if the task needs it. A fault's text goes to `errors`.
pub fn perform<O: Write, E: Write>(
    rt: &HostRuntime,
    found: &Found,
    words: &[String],
    output: &mut O,
    errors: &mut E,
) -> u8
    ensures { Performs ⟦<File as Disk>⟧ ⟦<ReadingFile as Disk>⟧ (map string_bytes words.now)
        (O.contents output.old) (O.contents output.new) result }
{
    let asked = match read(rt.alloc(), words) {
        Ok(Some(asked)) => asked,
        Ok(None) => return CommandFault::NoTask.tell("outbox", errors),
        Err(error) => return refuse(rt.alloc(), "outbox", &error, output, errors),
    };
    match asked {
        Asked::Outbox { task, wait } => {
            let database = task.database();
            if task.access().opens_for_reading(rt, database) {
                let place = ReadingPlace::new(rt, database, found);
                perform_in(rt, task, place, wait, output, errors)
            } else {
                let place = SystemPlace::new(rt, database, found);
                perform_in(rt, task, place, wait, output, errors)
            }
        }
        Asked::Lint { filer, form, files } => {
            match lint_reports(rt, "outbox", form, filer, &files, output, errors) {
                Ok(status) => status,
                Err(fault) => fault.tell("outbox", errors),
            }
        }
    }
}

/// The program: performs the words that it was started with, over the standard streams, and answers the status.
pub fn main(rt: &HostRuntime) -> u8 {
    match words(rt) {
        Ok(words) => perform(
            rt,
            &Found::new(),
            words.as_slice(),
            &mut rt.stdout(),
            &mut rt.stderr(),
        ),
        Err(fault) => fault.tell("outbox", &mut rt.stderr()),
    }
}
