//! The program: it makes what a task works with, and performs the task.

ghost use Rattle.std.specs.Prelude.{◌≡◌, true, map, string_bytes, Some, None, option_map};
ghost use Rattle.gateway_rounds.specs.Ports.{port as view_port};
ghost use Rattle.intake_commands.specs.Bounds.{bounds_of};
ghost use Rattle.intake_commands.specs.Performing.{IsFresh, PerformsOver, PerformsAll};
ghost use Rattle.intake_commands.specs.Words.{database_of, folder_of, asks_for_init};

use crate::asked::read;
use crate::clocked::Clocked;
use crate::fault::NotDone;
use crate::folder::SystemFolder;
use crate::options::{Asked, Serving, Task};
use crate::record::Recorded;
use crate::sockets::ReportedSockets;
use crate::tasks::perform_task;
use command_line::{refuse, words};
use connection_hall::{Bounds, Sockets, Stream};
use database_places::{Place, ReadingPlace, SystemFile, SystemPlace, WaitingPlace};
use found_files::Found;
use gateway_rounds::{Note, Port};
use http_wire::Device;
use intake_process::IntakeProcess;
use sqlite_disk::Disk;
use std::io::{IsTerminal, Stderr, Stdout, Write};
use system_sockets::{SystemLine, SystemSockets};

/// The text if requests are read from a terminal.
const READING: &str = concat!(
    "reading HTTP requests from this terminal, for a register in memory; ",
    "Ctrl-D ends it, and intake --help lists the other commands",
);

/// A connection of this machine, with what is noted of it.
type Line = Recorded<SystemLine>;

/// The sockets of this machine, whose connections are reported on the standard streams.
type Reported<'r> = ReportedSockets<SystemSockets<'r>, Stdout, Stderr>;

/// A port of this machine, or none.
type SystemPort<'r> = Option<Port<Line, Reported<'r>>>;

/// How much of a port is served at once, and how many connections in all.
fn bounds_of(serving: &Serving<'_>) -> Bounds
    ensures { result ≡ bounds_of serving.now }
{
    Bounds {
        places: usize::from(serving.at_once),
        connections: serving.connections,
        patience: serving.patience.map(|seconds| u64::from(seconds) * 1_000),
        memory: serving.memory as usize * 1_000_000,
    }
}

/// The port that is served, which does not listen yet; none if there is no memory for it.
fn port_of<'r>(rt: &'r HostRuntime, serving: &Serving<'r>) -> SystemPort<'r>
    ensures { IsFresh ⟦<Line as Stream>⟧ serving.now
        (option_map (view_port ⟦<Reported<'r> as Sockets>⟧.traffic) result) }
{
    let bounds = bounds_of(serving);
    let log = if serving.log { Some(rt.stdout()) } else { None };
    let sockets = SystemSockets::new(rt, serving.address, bounds.places);
    let reported = ReportedSockets::new(rt.alloc(), sockets, log, rt.stderr(), serving.patience);
    match Port::new(rt.alloc(), reported, bounds) {
        Ok(port) => Some(port),
        Err(_) => None,
    }
}

/// The disks of the files of the system. A clause reads each lifetime as this one.
type File = SystemFile<'static>;

type ReadingFile = database_places::ReadingFile<'static>;

/// Performs a task over the register of this place, this port, this folder and the standard streams, and answers the
/// status. The place is that of the task's file, and the folder the one that it names.
fn perform_in<
    D: Disk + Drop,
    P: Place<D> + Drop,
    T: Stream<Note = Note> + Drop,
    K: Sockets<Stream = T> + Drop,
    O: Write,
    E: Write,
>(
    rt: &HostRuntime,
    asked: &Asked<'_>,
    place: P,
    port: &mut Option<Port<T, K>>,
    folder: &mut SystemFolder<'_, '_>,
    output: &mut O,
    errors: &mut E,
) -> u8
    requires file { P.file place ≡ Some (database_of asked.now.task) }
    requires folder { folder.old.path.now ≡ folder_of asked.now.task }
    ensures { PerformsOver D.Disk T.Stream asked.now.task (P.lying place) (option_map (view_port K.traffic) port.old)
        (option_map (view_port K.traffic) port.new) (O.contents output.old) (O.contents output.new) result }
{
    perform_task(
        rt,
        &asked.task,
        &mut IntakeProcess::new(WaitingPlace::new(rt, place, asked.wait)),
        port,
        folder,
        &mut Clocked::new(rt, Device::new(rt.reader())),
        &mut Device::new(rt.stdout()),
        output,
        errors,
    )
}

/// Whether these words ask for `init`, which only an outbox has: a register is made by serving it.
fn asks_for_init(words: &[String]) -> bool
    ensures { result ≡ asks_for_init (map string_bytes words.now) }
{
    match words.get(1) {
        Some(word) => word.as_str() == "init",
        None => false,
    }
}

/// Performs what these words ask for, the program's name first, and answers the status. Files hold at first what was
/// found, and the file of a register is opened for writing only if the task needs it. A fault's text goes to `errors`.
fn perform<O: Write, E: Write>(
    rt: &HostRuntime,
    found: &Found,
    words: &[String],
    output: &mut O,
    errors: &mut E,
) -> u8
    ensures { PerformsAll ⟦<File as Disk>⟧ ⟦<ReadingFile as Disk>⟧ ⟦<Line as Stream>⟧ (map string_bytes words.now)
        (O.contents output.old) (O.contents output.new) result }
{
    if asks_for_init(words) {
        return NotDone::NoInit.tell(errors);
    }
    let asked = match read(rt.alloc(), words) {
        Ok(Ok(asked)) => asked,
        Ok(Err(fault)) => return fault.tell(errors),
        Err(error) => return refuse(rt.alloc(), "intake", &error, output, errors),
    };
    let database = asked.task.database();
    let mut folder = SystemFolder::new(rt, asked.task.folder());
    let mut no_port: SystemPort<'_> = None;
    match &asked.task {
        Task::Serve(serving) => {
            let mut port = port_of(rt, serving);
            let place = SystemPlace::new(rt, database, found);
            perform_in(rt, &asked, place, &mut port, &mut folder, output, errors)
        }
        task if task.access().opens_for_reading(rt, database) => {
            let place = ReadingPlace::new(rt, database, found);
            perform_in(rt, &asked, place, &mut no_port, &mut folder, output, errors)
        }
        _ => {
            let place = SystemPlace::new(rt, database, found);
            perform_in(rt, &asked, place, &mut no_port, &mut folder, output, errors)
        }
    }
}

/// Says what the program reads, if no word was given and the input is a terminal.
fn tell_terminal(rt: &HostRuntime, words: &[String]) {
    if words.len() <= 1 && rt.stdin().is_terminal() {
        // Nothing is left to be done if this text can't be written.
        let _ = writeln!(rt.stderr(), "intake: {READING}");
    }
}

/// The program: performs the words that it was started with, over the standard streams, and answers the status.
pub fn main(rt: &HostRuntime) -> u8 {
    let words = match words(rt) {
        Ok(words) => words,
        Err(fault) => return fault.tell("intake", &mut rt.stderr()),
    };
    tell_terminal(rt, words.as_slice());
    perform(
        rt,
        &Found::new(),
        words.as_slice(),
        &mut rt.stdout(),
        &mut rt.stderr(),
    )
}
