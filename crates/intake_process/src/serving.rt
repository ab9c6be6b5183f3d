//! Answers the connections of a port, round by round, by an intake that is opened again after a refusal.

ghost use Rattle.std.specs.Prelude.{◌≡◌, ◌≢◌, ◌≤◌, ◌+◌, ◌^◌, ℕ, Bool, Option, Some, None, Ok, true, IfOk, OnOk};
ghost use Rattle.std.specs.Prelude.{option_map};
ghost use Rattle.std.specs.Result.{result_ok};
ghost use Rattle.gateway_rounds.specs.Ports.{port as view_port, is_shut, KeepsPort};
ghost use Rattle.database_places.specs.Places.{IsHonest};
ghost use Rattle.intake_process.specs.Process.{parts, IsAwake, Leaves, StaysUp};
ghost use Rattle.intake_process.specs.History.{IsReady, IsOver, Passes, said_of};
ghost use Rattle.intake_process.specs.Observing.{Notes};
ghost use Rattle.intake_process.specs.Turns.{AnswersSome, EndsBy, ServesRegister};
ghost use Rattle.database_places.specs.Opening.{is_found};

use crate::beginning::Totals;
use crate::fault::Refusal;
use crate::observer::{Observer, Went};
use crate::process::{AnsweredBy, IntakeProcess};
use connection_hall::{Sockets, Stream};
use database_places::{Opening, PageCache, Place};
use gateway_rounds::{Note, Port};
use intake_core::Moment;
use sqlite_disk::Disk;
use std::alloc::Global;
use std::io;

/// Why a port is not served to its end.
#[derive(Debug, Drop)]
pub enum ServingFault {
    /// The register was not opened.
    Register(Refusal),
    /// The port gives no more connections.
    Port(io::Error),
}

/// Serves a port by the register in the place of a process, from beginning to end: opens or makes the register, listens
/// on the port, answers the connections that come on it until it was asked `most` times or is shut, and closes the
/// register. It answers how many times the port was asked.
pub fn serve_register<
    D: Disk + Drop,
    P: Place<D> + Drop,
    T: Stream<Note = Note> + Drop,
    K: Sockets<Stream = T> + Drop,
    O: Observer,
>(
    alloc: Global,
    port: &mut Port<T, K>,
    process: &mut IntakeProcess<D, P>,
    observer: &mut O,
    opening: Opening,
    limit: u64,
    most: u64,
) -> Result<u64, ServingFault>
    requires { limit ≤ 2 ^ 62 }
    ensures { ServesRegister T.Stream (is_found opening) limit most (view_port K.traffic port.old)
        (view_port K.traffic port.new)
        (O.answers observer.old) (O.answers observer.new) (parts P.lying process.old) (parts P.lying process.new)
        result }
{
    let totals = match process.open(alloc, opening, limit) {
        Ok(totals) => totals,
        Err(fault) => return Err(ServingFault::Register(fault)),
    };
    let served = listen_and_serve(alloc, port, process, observer, totals, limit, most);
    observer.closed(process.close());
    match served {
        Ok(taken) => Ok(taken),
        Err(error) => Err(ServingFault::Port(error)),
    }
}

/// Listens on a port, and answers its connections by a register that holds this much.
fn listen_and_serve<
    D: Disk + Drop,
    P: Place<D> + Drop,
    T: Stream<Note = Note> + Drop,
    K: Sockets<Stream = T> + Drop,
    O: Observer,
>(
    alloc: Global,
    port: &mut Port<T, K>,
    process: &mut IntakeProcess<D, P>,
    observer: &mut O,
    totals: Option<Totals>,
    limit: u64,
    most: u64,
) -> io::Result<u64>
    requires { limit ≤ 2 ^ 62 }
    ensures answers { IsHonest D.Disk → AnswersSome T.Stream limit (view_port K.traffic port.old)
        (view_port K.traffic port.new)
        (parts P.lying process.old) (parts P.lying process.new) }
    ensures ends { IfOk result (EndsBy most (view_port K.traffic port.new)) }
    ensures shut { is_shut (view_port K.traffic port.old) ≡ true → IfOk result (λ taken. taken ≡ 0) }
    ensures stays { StaysUp (parts P.lying process.old) (parts P.lying process.new) }
    ensures passes { Passes T.Stream limit (view_port K.traffic port.old) (view_port K.traffic port.new)
        (parts P.lying process.old) (parts P.lying process.new) (O.answers observer.old) (O.answers observer.new)
        (result_ok result) }
    ensures asked { IfOk result (λ taken.
        (view_port K.traffic port.new).asked ≡ (view_port K.traffic port.old).asked + taken) }
    ensures bounds { port.new.hall.bounds ≡ port.old.hall.bounds }
{
    // The register was read whole by now, so no connection waits for that.
    port.listen()?;
    if let Some(totals) = totals {
        observer.ready(totals);
    }
    serve_port(alloc, port, process, observer, limit, most)
}

/// Answers what comes on the connections of a port, by the register as what was answered before left it, until the port
/// was asked `most` times or is shut. If the database refuses a call the register is closed. It is opened again for a
/// round that comes later, if the observer lets it, and until it is open connections are turned away. It answers how
/// many times the port was asked.
pub fn serve_port<
    D: Disk + Drop,
    P: Place<D> + Drop,
    T: Stream<Note = Note> + Drop,
    K: Sockets<Stream = T> + Drop,
    O: Observer,
>(
    alloc: Global,
    port: &mut Port<T, K>,
    process: &mut IntakeProcess<D, P>,
    observer: &mut O,
    limit: u64,
    most: u64,
) -> io::Result<u64>
    requires { limit ≤ 2 ^ 62 }
    ensures answers { IsHonest D.Disk → AnswersSome T.Stream limit (view_port K.traffic port.old)
        (view_port K.traffic port.new)
        (parts P.lying process.old) (parts P.lying process.new) }
    ensures ends { IfOk result (EndsBy most (view_port K.traffic port.new)) }
    ensures shut { is_shut (view_port K.traffic port.old) ≡ true → result ≡ Ok 0 }
    ensures closed { IsAwake process.old.intake → OnOk result (IsAwake process.new.intake) }
    ensures stays { StaysUp (parts P.lying process.old) (parts P.lying process.new) }
    ensures passes { Passes T.Stream limit (view_port K.traffic port.old) (view_port K.traffic port.new)
        (parts P.lying process.old) (parts P.lying process.new) (O.answers observer.old) (O.answers observer.new)
        (result_ok result) }
    ensures asked { IfOk result (λ taken.
        (view_port K.traffic port.new).asked ≡ (view_port K.traffic port.old).asked + taken) }
    ensures bounds { port.new.hall.bounds ≡ port.old.hall.bounds }
{
    // One round after another: a register has one writer, so more threads would decide nothing sooner.
    for taken in 0..most {
        if port.is_shut() {
            return Ok(taken);
        }
        serve_round(alloc, port, process, observer, limit)?;
    }
    Ok(most)
}

/// Asks a port for the connections that may go on, and answers what waits then.
fn serve_round<
    D: Disk + Drop,
    P: Place<D> + Drop,
    T: Stream<Note = Note> + Drop,
    K: Sockets<Stream = T> + Drop,
    O: Observer,
>(
    alloc: Global,
    port: &mut Port<T, K>,
    process: &mut IntakeProcess<D, P>,
    observer: &mut O,
    limit: u64,
) -> io::Result<()>
    requires { limit ≤ 2 ^ 62 }
    ensures answers { IsHonest D.Disk → AnswersSome T.Stream limit (view_port K.traffic port.old)
        (view_port K.traffic port.new)
        (parts P.lying process.old) (parts P.lying process.new) }
    ensures closed { IsAwake process.old.intake → IsAwake process.new.intake }
    ensures stays { StaysUp (parts P.lying process.old) (parts P.lying process.new) }
    ensures passes { Passes T.Stream limit (view_port K.traffic port.old) (view_port K.traffic port.new)
        (parts P.lying process.old) (parts P.lying process.new) (O.answers observer.old) (O.answers observer.new)
        (option_map (λ _. 1) (result_ok result)) }
    ensures asked { (view_port K.traffic port.new).asked ≡ (view_port K.traffic port.old).asked + 1 }
    ensures bounds { port.new.hall.bounds ≡ port.old.hall.bounds }
{
    port.go_on()?;
    if port.waits() {
        answer_waiting(alloc, port, process, observer, limit);
    }
    Ok(())
}

/// Answers what waits on a port, by a register that is opened again first if it is closed and the observer lets it.
fn answer_waiting<
    D: Disk + Drop,
    P: Place<D> + Drop,
    T: Stream<Note = Note> + Drop,
    K: Sockets<Stream = T> + Drop,
    O: Observer,
>(
    alloc: Global,
    port: &mut Port<T, K>,
    process: &mut IntakeProcess<D, P>,
    observer: &mut O,
    limit: u64,
)
    requires { limit ≤ 2 ^ 62 }
    ensures answers { IsHonest D.Disk → AnswersSome T.Stream limit (view_port K.traffic port.old)
        (view_port K.traffic port.new)
        (parts P.lying process.old) (parts P.lying process.new) }
    ensures closed { IsAwake process.new.intake }
    ensures stays { StaysUp (parts P.lying process.old) (parts P.lying process.new) }
    ensures passes { Passes T.Stream limit (view_port K.traffic port.old) (view_port K.traffic port.new)
        (parts P.lying process.old) (parts P.lying process.new) (O.answers observer.old) (O.answers observer.new)
        (Some 1) }
    ensures port { KeepsPort (view_port K.traffic port.old) (view_port K.traffic port.new) }
{
    let refusal = open_again(alloc, process, observer, limit);
    // All had come by now, so none is dated before it came.
    let by = process.answer_port(port, Moment::at(port.moment()));
    observer.ended(went(process, by, refusal));
}

/// Opens the register again, if it is closed and the observer lets it. It answers why it was not opened, if that was
/// tried.
fn open_again<D: Disk + Drop, P: Place<D> + Drop, O: Observer>(
    alloc: Global,
    process: &mut IntakeProcess<D, P>,
    observer: &mut O,
    limit: u64,
) -> Option<Refusal>
    requires { limit ≤ 2 ^ 62 }
    ensures leaves { IsHonest D.Disk → Leaves limit (parts P.lying process.old) (parts P.lying process.new) }
    ensures stays { StaysUp (parts P.lying process.old) (parts P.lying process.new) }
    ensures ready { (asked : Option Bool)
        × IsReady limit asked (parts P.lying process.old) (parts P.lying process.new)
        × Notes (O.answers observer.old) (O.answers observer.new) (said_of asked) }
{
    if process.is_open() {
        return None;
    }
    if !observer.may_open() {
        return None;
    }
    match process.open(alloc, Opening::Found(PageCache::Largest), limit) {
        Ok(Some(totals)) => {
            observer.opened(totals);
            None
        }
        Ok(None) => None,
        Err(fault) => Some(fault),
    }
}

/// What came of a round that was answered like this. If the database refused a call, the register is closed.
fn went<D: Disk + Drop, P: Place<D> + Drop>(
    process: &mut IntakeProcess<D, P>,
    by: AnsweredBy,
    refusal: Option<Refusal>,
) -> Went
    ensures leaves { IsHonest D.Disk → (limit : ℕ)
        → Leaves limit (parts P.lying process.old) (parts P.lying process.new) }
    ensures failed { by ≡ AnsweredBy.Failed → process.new.intake ≡ None }
    ensures others { by ≢ AnsweredBy.Failed → process.new ≡ process.old }
    ensures over { IsOver by (parts P.lying process.old) (parts P.lying process.new) }
    ensures calls { process.new.refused_calls ≡ process.old.refused_calls }
{
    match (by, refusal) {
        (AnsweredBy::Served, _) => Went::Served {
            kept: process.kept().unwrap_or(0),
        },
        (AnsweredBy::Failed, _) => Went::Failed(process.close()),
        (AnsweredBy::TurnedAway, Some(fault)) => Went::NotOpened(fault),
        (AnsweredBy::TurnedAway, None) => Went::TurnedAway,
    }
}
