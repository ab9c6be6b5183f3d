//! Performs a task, and says how the program ends.

ghost use Rattle.std.specs.Prelude.{◌≡◌, None, option_map};
ghost use Rattle.gateway_rounds.specs.Ports.{port as view_port};
ghost use Rattle.http_wire.specs.Wire.{wire};
ghost use Rattle.intake_process.specs.Process.{parts};
ghost use Rattle.intake_commands.specs.Status.{status_of};
ghost use Rattle.intake_commands.specs.Tasks.{Performs, is_wanted, means};

use crate::fault::NotDone;
use crate::folder::SiteFolder;
use crate::options::Task;
use crate::running::run_once;
use crate::serving::serve;
use crate::visiting::visit;
use command_line::CommandFault;
use connection_hall::{Sockets, Stream};
use database_places::Place;
use finding_lines::lint_reports;
use gateway_rounds::{Note, Port};
use http_wire::{Sink, Source};
use intake_process::{Errand, IntakeProcess, Question};
use key_string::is_filer;
use sqlite_disk::Disk;
use std::io::Write;

/// Performs a task, and answers the status. The process is that of the register that the task is for, and closed; the
/// port is the one that it serves, if it serves one, the folder the one that it writes pages into, and the reader and
/// the writer are the connection that it runs. It is written over any of these, so that the contract is one for every
/// disk, and what the system alone knows stays behind the traits. A fault's text goes to `errors`.
pub(crate) fn perform_task<
    D: Disk + Drop,
    P: Place<D> + Drop,
    T: Stream<Note = Note> + Drop,
    K: Sockets<Stream = T> + Drop,
    F: SiteFolder,
    R: Source,
    W: Sink,
    O: Write,
    E: Write,
>(
    rt: &HostRuntime,
    task: &Task<'_>,
    process: &mut IntakeProcess<D, P>,
    port: &mut Option<Port<T, K>>,
    folder: &mut F,
    reader: &mut R,
    writer: &mut W,
    output: &mut O,
    errors: &mut E,
) -> u8
    requires { (parts P.lying process.old).intake ≡ None }
    ensures { Performs {g = D.Disk} T.Stream task.now
        (means (wire R.Source W.Sink reader.old writer.old) (O.contents output.old) (F.Folder.pages folder.old)
        (option_map (view_port K.traffic) port.old) (parts P.lying process.old))
        (means (wire R.Source W.Sink reader.new writer.new) (O.contents output.new) (F.Folder.pages folder.new)
        (option_map (view_port K.traffic) port.new) (parts P.lying process.new))
        result }
{
    match task {
        Task::Run { limit } => end(run_once(rt.alloc(), *limit, reader, writer), errors),
        Task::Serve(serving) => end(serve(rt, *serving, process, port, errors), errors),
        Task::Visit { database, errand } if is_wanted(*errand) => {
            let done = visit(rt, database, *errand, process, folder, output, errors);
            end(done, errors)
        }
        Task::Visit { .. } => end(Err(NotDone::Command(CommandFault::Filer)), errors),
        Task::Lint { filer, form, files } => {
            let linted = lint_reports(rt, "intake", *form, filer, files, output, errors);
            end(linted.map_err(NotDone::Command), errors)
        }
    }
}

/// The status of a task that was done, or of why it was not. That is written as a line.
fn end<E: Write>(done: Result<u8, NotDone<'_>>, errors: &mut E) -> u8
    ensures { result ≡ status_of done.entry }
{
    match done {
        Ok(status) => status,
        Err(fault) => fault.tell(errors),
    }
}

/// Whether the filer's code of an errand, if it has one, is the code of a filer.
fn is_wanted(errand: Errand<'_>) -> bool
    ensures { result ≡ is_wanted errand.entry }
{
    let filer = match errand {
        Errand::Ask(Question::List { filer, moments: _ }) => Some(filer),
        Errand::Ask(Question::RequestBody { filer, key: _ }) => Some(filer),
        Errand::Export { form: _, wanted } => wanted.filer,
        _ => None,
    };
    match filer {
        Some(filer) => is_filer(filer),
        None => true,
    }
}
