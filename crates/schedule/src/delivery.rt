//! The bytes of a delivery are served by the process of an intake, to their end or up to a stop.

ghost use Rattle.std.specs.Prelude.{◌≡◌, ◌++◌, ℕ, List, true, Some, is_some, IfOk};
ghost use Rattle.http_messages.specs.Message.{Arrival};
ghost use Rattle.http_messages.specs.declared.refusal.ConnFault.TheVariants.{Write};
ghost use Rattle.http_wire.specs.Wire.{wire};
ghost use Rattle.filing_model.specs.declared.served.Ended.TheVariants.{Fault};
ghost use Rattle.filing_model.specs.Request.{Request, firsts};
ghost use Rattle.filing_model.specs.Stopping.{ServesUntil};
ghost use Rattle.filing_model.specs.Text.{completed};
ghost use Rattle.gateway_server.specs.Stopping.{view_stop};
ghost use Rattle.schedule.specs.Processes.{KeepsSurely, ServesPart};

use crate::ends::honest::Honest;
use database_places::Drawer;
use filing_model::{Ended, Mark};
use gateway_server::{Partly, Served, Stop, serve_until};
use http_wire::{ConnFault, MemoryReader, MemoryWriter, Sink, Source};
use intake_process::{Answered, IntakeProcess};
use std::alloc::{AllocError, Global};

/// What became of some bytes that were served: what was marked, how serving ended, and what was written.
#[derive(Drop)]
pub(crate) struct Exchange {
    pub(crate) marks: Vec<Mark>,
    pub(crate) ended: Option<Ended>,
    pub(crate) text: Vec<u8>,
}

/// A connection that was served to its end.
fn whole(answered: Answered) -> Partly
    ensures marks { result.marks ≡ answered.served.marks }
    ensures ended { result.ended ≡ Some answered.served.ended }
{
    let Answered { served, outcome: _ } = answered;
    let Served { marks, ended } = served;
    Partly {
        marks,
        ended: Some(ended),
    }
}

/// Serves a connection up to a stop by the intake of this process, which is killed then. Nothing is served if it is
/// closed.
fn serve_killed<D: Honest, R: Source, W: Sink>(
    alloc: Global,
    process: &mut IntakeProcess<D, Drawer<D>>,
    reader: &mut R,
    writer: &mut W,
    stop: Stop,
) -> Partly
    ensures serves { (limit : ℕ) (before : List Request) → KeepsSurely process.old limit before
        → is_some process.old.intake ≡ true
        → ServesPart limit before (wire R.Source W.Sink reader.old writer.old)
        (wire R.Source W.Sink reader.new writer.new) (view_stop stop) process.new result }
    ensures up { is_some process.new.intake ≡ is_some process.old.intake }
{
    match process.intake_mut() {
        Some(intake) => serve_until(alloc, reader, writer, intake, stop),
        None => Partly {
            marks: Vec::new(alloc),
            ended: None,
        },
    }
}

/// Serves a connection by this process as a program does, or up to a stop.
fn serve_part<D: Honest, R: Source, W: Sink>(
    alloc: Global,
    process: &mut IntakeProcess<D, Drawer<D>>,
    reader: &mut R,
    writer: &mut W,
    stop: Stop,
) -> Partly
    ensures serves { (limit : ℕ) (before : List Request) → KeepsSurely process.old limit before
        → is_some process.old.intake ≡ true
        → ServesPart limit before (wire R.Source W.Sink reader.old writer.old)
        (wire R.Source W.Sink reader.new writer.new) (view_stop stop) process.new result }
    ensures up { is_some process.new.intake ≡ is_some process.old.intake }
{
    match stop {
        Stop::Never => whole(process.answer(alloc, reader, writer)),
        Stop::Before(_) => serve_killed(alloc, process, reader, writer, stop),
        Stop::After(_) => serve_killed(alloc, process, reader, writer, stop),
    }
}

/// Whether the writer failed.
fn is_refused(ended: Option<Ended>) -> bool
    ensures { (sent : ℕ) → ended ≡ Some (Fault (Write sent)) → result ≡ true }
{
    matches!(ended, Some(Ended::Fault(ConnFault::Write { .. })))
}

/// Serves these bytes by this process, up to a stop. If the writer failed, memory ran out.
pub(crate) fn serve_bytes<D: Honest>(
    alloc: Global,
    process: &mut IntakeProcess<D, Drawer<D>>,
    bytes: &[u8],
    stop: Stop,
) -> Result<Exchange, AllocError>
    ensures serves { (limit : ℕ) (done : List Request) → KeepsSurely process.old limit (firsts done)
        → is_some process.old.intake ≡ true → IfOk result (λ e. (arrivals : List Arrival)
        × ServesUntil limit done bytes.now (view_stop stop) arrivals e.marks.items e.ended e.text.items
        × KeepsSurely process.new limit (firsts (done ++ completed arrivals e.marks.items))) }
    ensures up { is_some process.new.intake ≡ is_some process.old.intake }
{
    let mut reader = MemoryReader::new(bytes);
    let mut writer = MemoryWriter::new(alloc);
    let Partly { marks, ended } = serve_part(alloc, process, &mut reader, &mut writer, stop);
    if is_refused(ended) {
        return Err(AllocError);
    }
    Ok(Exchange {
        marks,
        ended,
        text: writer.into_text(),
    })
}
