//! Serves the connections of a port on the register of a file.

ghost use Rattle.std.specs.Prelude.{◌≡◌, not, true, None, Err, IfErr, option_map};
ghost use Rattle.database_places.specs.Opening.{is_found};
ghost use Rattle.gateway_rounds.specs.Ports.{port as view_port};
ghost use Rattle.intake_process.specs.Process.{parts};
ghost use Rattle.intake_commands.specs.Tasks.{Serves, ServesPort, IsServingTold};

use crate::fault::NotDone;
use crate::limit::Limit;
use crate::options::Serving;
use crate::reported_fault::opening_fault;
use crate::reporter::Reporter;
use command_line::{CommandFault, DONE};
use connection_hall::{Sockets, Stream};
use database_places::{Opening, PageCache, Place};
use gateway_rounds::{Note, Port};
use intake_process::{IntakeProcess, ServingFault, serve_register};
use sqlite_disk::Disk;
use std::alloc::Global;
use std::io::{self, Write};

/// Serves the connections of this port by the register of this process. There is no port if there was no memory for
/// one.
pub(crate) fn serve<
    'a,
    D: Disk + Drop,
    P: Place<D> + Drop,
    T: Stream<Note = Note> + Drop,
    K: Sockets<Stream = T> + Drop,
    E: Write,
>(
    rt: &HostRuntime,
    serving: Serving<'a>,
    process: &mut IntakeProcess<D, P>,
    port: &mut Option<Port<T, K>>,
    errors: &mut E,
) -> Result<u8, NotDone<'a>>
    ensures { Serves T.Stream serving.entry (option_map (view_port K.traffic) port.old)
        (option_map (view_port K.traffic) port.new) (parts P.lying process.old) (parts P.lying process.new) result }
{
    match port {
        Some(port) => serve_port(rt, serving, process, port, errors),
        None => Err(NotDone::Command(CommandFault::Memory)),
    }
}

/// Serves the connections of this port by the register of this process. Standard error says when it is ready and when
/// it ends. If the port is not to be had, no new register is made.
fn serve_port<
    'a,
    D: Disk + Drop,
    P: Place<D> + Drop,
    T: Stream<Note = Note> + Drop,
    K: Sockets<Stream = T> + Drop,
    E: Write,
>(
    rt: &HostRuntime,
    serving: Serving<'a>,
    process: &mut IntakeProcess<D, P>,
    port: &mut Port<T, K>,
    errors: &mut E,
) -> Result<u8, NotDone<'a>>
    ensures { ServesPort T.Stream serving.entry (view_port K.traffic port.old) (view_port K.traffic port.new)
        (parts P.lying process.old) (parts P.lying process.new) result }
{
    let Some(limit) = Limit::new(serving.limit) else {
        return Err(NotDone::Limit);
    };
    if let Err(error) = listen_before(port, serving.new) {
        return Err(NotDone::Network {
            address: serving.address,
            error,
        });
    }
    let mut reporter = Reporter::new(rt, serving, errors);
    let served = serve_register(
        rt.alloc(),
        port,
        process,
        &mut reporter,
        opening(serving.new),
        limit.keys,
        u64::MAX,
    );
    match served {
        Ok(_) => {
            reporter.tell_served();
            Ok(DONE)
        }
        Err(fault) => Err(serving_fault(rt.alloc(), process.place(), serving, fault)),
    }
}

/// Listens on a port before a new register is made, so that a port in use leaves no file. One that is there is opened
/// first, since that takes its time, and connections would wait for it.
fn listen_before<T: Stream<Note = Note> + Drop, K: Sockets<Stream = T> + Drop>(
    port: &mut Port<T, K>,
    is_made: bool,
) -> io::Result<()>
    ensures same { view_port K.traffic port.new ≡ view_port K.traffic port.old }
    ensures refused { IfErr result (λ _. is_made ≡ true) }
{
    if is_made { port.listen() } else { Ok(()) }
}

/// How a register is opened that is new or not.
fn opening(is_new: bool) -> Opening
    ensures { is_found result ≡ not is_new }
{
    if is_new {
        Opening::Made(PageCache::Largest)
    } else {
        Opening::Found(PageCache::Largest)
    }
}

/// Why the port was not served to its end.
fn serving_fault<'a, D: Disk + Drop, P: Place<D>>(
    alloc: Global,
    place: &P,
    serving: Serving<'a>,
    fault: ServingFault,
) -> NotDone<'a>
    ensures { IsServingTold serving.entry (Err fault) (Err result) }
{
    match fault {
        ServingFault::Register(refusal) => opening_fault(alloc, place, serving.database, refusal),
        ServingFault::Port(error) => NotDone::Network {
            address: serving.address,
            error,
        },
    }
}
