//! Opens the outbox of a task, does an errand on it, and closes it.

ghost use Rattle.std.specs.Prelude.{◌≡◌, None, IsSome};
ghost use Rattle.database_places.specs.Places.{IsHonest};
ghost use Rattle.outbox_process.specs.Process.{parts, Leaves, ClosesProcess};
ghost use Rattle.outbox_commands.specs.Looking.{KeepsEntries};
ghost use Rattle.outbox_commands.specs.Status.{status_of, status_by, why_status, failed_status, strict_status};
ghost use Rattle.outbox_commands.specs.Status.{done_status};
ghost use Rattle.outbox_commands.specs.Visits.{IsToldAs, OpensTold, VisitsOutbox};

use crate::fault::NotDone;
use crate::network::Network;
use database_places::{Place, refusal};
use filer_client::ExchangeFault;
use outbox_core::{Entry, Outbox};
use outbox_process::{Beginning, Done, Errand, NotOpened, OutboxProcess, Round, Why};
use sqlite::Alter;
use sqlite_disk::Disk;
use std::alloc::Global;
use std::io::Write;
use terminal_text::OneLine;

/// How many entries before a new one are compared with it.
const MOST_COMPARED: u64 = 16;

/// A refusal as it is reported: if it depends on the pages of the file, the first page says more.
fn told<D: Disk + Drop, P: Place<D> + Drop>(alloc: Global, place: &P, why: Why) -> Why
    ensures { IsToldAs why result }
{
    match why {
        Why::Files(fault) => Why::Files(refusal(alloc, place, fault)),
        why => why,
    }
}

/// Opens an outbox that begins like this, or answers the refusal as it is reported.
pub(crate) fn open<D: Disk + Drop, P: Place<D> + Drop>(
    alloc: Global,
    process: &mut OutboxProcess<D, P>,
    beginning: Beginning<'_>,
) -> Result<(), NotOpened>
    ensures { OpensTold D.Disk beginning.entry (parts P.lying process.old) (parts P.lying process.new) result }
{
    match process.open(alloc, beginning) {
        Ok(()) => Ok(()),
        Err(NotOpened { why, holding }) => Err(NotOpened {
            why: told(alloc, process.place(), why),
            holding,
        }),
    }
}

/// Closes the outbox of the file with this name, and reports on the standard error if its files are not closed. What
/// was reported is kept then, in the log beside the file.
pub(crate) fn close<D: Disk + Drop, P: Place<D> + Drop, E: Write>(
    process: &mut OutboxProcess<D, P>,
    name: &str,
    errors: &mut E,
)
    ensures { (closed : _) × ClosesProcess D.Disk (parts P.lying process.old) (parts P.lying process.new) closed }
{
    let closed = process.close();
    // A close that failed only warns: after a fault somebody might put a report in twice.
    if closed.is_err() {
        NotDone::of_errand(Why::NotClosed, name).tell(errors);
    }
}

/// Opens the outbox of the file with this name, does this errand on it, and closes it. What was reported stays whether
/// or not the files are then closed. A strict one files each entry that it sends, or it is a fault.
pub(crate) fn run_errand<'a, D: Disk + Drop, P: Place<D> + Drop, N: Network, O: Write, E: Write>(
    alloc: Global,
    process: &mut OutboxProcess<D, P>,
    network: &mut N,
    name: &'a str,
    errand: Errand,
    is_strict: bool,
    output: &mut O,
    errors: &mut E,
) -> Result<(), NotDone<'a>>
    requires { process.old.outbox ≡ None }
    ensures { VisitsOutbox D.Disk is_strict errand (N.traffic network.old) (N.traffic network.new)
        (O.contents output.old) (O.contents output.new) (parts P.lying process.old) (parts P.lying process.new)
        (status_by result) }
{
    if let Err(refusal) = open(alloc, process, Beginning::Found) {
        return Err(NotDone::of_refusal(refusal, name));
    }
    let came = process.perform(alloc, network, errand, output);
    let done = answer(network, came, is_strict, name);
    close(process, name, errors);
    done
}

/// The result of an errand on the outbox of the file with this name. The network reports what it has to report, unless
/// the errand ended by a fault.
fn answer<'a, N: Network>(
    network: &mut N,
    came: Result<Done, Why>,
    is_strict: bool,
    name: &'a str,
) -> Result<(), NotDone<'a>>
    ensures status { status_by result ≡ done_status is_strict came }
    ensures traffic { N.traffic network.new ≡ N.traffic network.old }
{
    match came {
        Ok(done) => {
            network.tell();
            fault_of_done(network.port(), is_strict, done)
        }
        Err(why) => Err(not_done(why, name, network)),
    }
}

/// Whether a peer is the cause.
fn is_of_peer(why: &Why) -> bool {
    matches!(
        why,
        Why::Connect(_)
            | Why::Exchange {
                fault: ExchangeFault::Write { .. } | ExchangeFault::Reply(_),
                ..
            }
            | Why::NotListed { .. }
            | Why::NoList { .. }
            | Why::Contradicts { .. }
    )
}

/// Why an errand was not done on the outbox of the file with this name, over this network.
fn not_done<'a, N: Network>(why: Why, name: &'a str, network: &N) -> NotDone<'a>
    ensures { status_of result ≡ why_status why }
{
    if is_of_peer(&why) {
        NotDone::Peer {
            port: network.port(),
            why,
            late: network.lost_patience(),
        }
    } else {
        NotDone::of_errand(why, name)
    }
}

/// The fault of an errand that sent entries: exchanges failed, or, if it is strict, entries were not filed.
fn fault_of_done<'a>(port: u16, is_strict: bool, done: Done) -> Result<(), NotDone<'a>>
    ensures { status_by result ≡ done_status is_strict (Ok done) }
{
    match done {
        Done::Sent(round) if is_strict => fault_of_unfiled(round),
        // If it is not strict, a refused report is a result and no failure.
        Done::Sent(round) => fault_of_failed(port, round),
        Done::Put { .. } | Done::Shown => Ok(()),
    }
}

/// The fault of a round in which exchanges failed.
fn fault_of_failed<'a>(port: u16, round: Round) -> Result<(), NotDone<'a>>
    ensures { status_by result ≡ failed_status round.failed }
{
    let Round { sent, failed, .. } = round;
    if failed == 0 {
        return Ok(());
    }
    Err(NotDone::Round { port, sent, failed })
}

/// The fault of a round in which entries were not filed.
fn fault_of_unfiled<'a>(round: Round) -> Result<(), NotDone<'a>>
    ensures { status_by result ≡ strict_status round.refused round.left_open round.failed }
{
    match round {
        Round {
            failed: 0,
            left_open: 0,
            refused: 0,
            ..
        } => Ok(()),
        Round {
            failed,
            left_open,
            refused,
            ..
        } => Err(NotDone::Unfiled {
            refused,
            open: left_open.saturating_add(failed),
        }),
    }
}

/// Whether two entries have one report, and replace the same filing or none.
fn is_same(one: &Entry, other: &Entry) -> bool {
    // The target is part of the request, as the body is.
    one.target == other.target && one.body.as_slice() == other.body.as_slice()
}

/// The newest of the entries before this one that has its report. Only the last few are read, so that this costs
/// little in a large outbox.
fn same_before<S: Alter>(outbox: &mut Outbox<S>, entry: &Entry) -> Option<u64>
    ensures { KeepsEntries S.Store outbox.old outbox.new }
{
    let first = entry.id.saturating_sub(MOST_COMPARED).max(1);
    for id in (first..entry.id).rev() {
        if let Ok(Some(other)) = outbox.entry(id) {
            if is_same(entry, &other) {
                return Some(id);
            }
        }
    }
    None
}

/// The newest of the last few entries before the entry of this id that has its report too.
fn same_as<S: Alter>(outbox: &mut Outbox<S>, id: u64) -> Option<u64>
    ensures { KeepsEntries S.Store outbox.old outbox.new }
{
    match outbox.entry(id) {
        Ok(Some(entry)) => same_before(outbox, &entry),
        _ => None,
    }
}

/// Reports on the standard error if one of the last few entries has the report that was put in too, with this name of
/// its file, if there is one.
pub(crate) fn tell_same<D: Disk + Drop, P: Place<D> + Drop, E: Write>(
    process: &mut OutboxProcess<D, P>,
    came: &Result<Done, Why>,
    named: Option<&str>,
    errors: &mut E,
)
    ensures kept { IsHonest D.Disk → Leaves (parts P.lying process.old) (parts P.lying process.new) }
    ensures stays_open { IsSome process.old.outbox → IsSome process.new.outbox }
{
    let Ok(Done::Put { id }) = came else {
        return;
    };
    let Some(outbox) = process.outbox_mut() else {
        return;
    };
    if let Some(same) = same_as(outbox, *id) {
        tell_entry(same, named, errors);
    }
}

/// Reports on the standard error that the entry of this id has the report too, with this name of its file, if there is
/// one.
fn tell_entry<E: Write>(id: u64, named: Option<&str>, errors: &mut E) {
    // Nothing is left to be done if this text can't be written either.
    let _ = match named {
        Some(file) => writeln!(
            errors,
            "outbox: {}: the same report is in the outbox already, as entry {id}",
            OneLine(file)
        ),
        None => writeln!(
            errors,
            "outbox: the same report is in the outbox already, as entry {id}"
        ),
    };
}
