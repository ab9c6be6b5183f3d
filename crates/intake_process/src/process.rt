//! The process that an intake runs in.

ghost use Rattle.std.specs.Prelude.{◌≡◌, ◌≢◌, ◌↔◌, ◌≤◌, ◌^◌, None, true, is_some, option_map};
ghost use Rattle.std.specs.Borrow.{sem};
ghost use Rattle.std.specs.Option.{option_copied_mut};
ghost use Rattle.http_wire.specs.Wire.{wire};
ghost use Rattle.database_places.specs.Opening.{is_found};
ghost use Rattle.gateway_rounds.specs.Ports.{port as view_port};
ghost use Rattle.gateway_rounds.specs.Rounds.{AnswersRound};
ghost use Rattle.intake_core.specs.Held.{store_of, has_stopped};
ghost use Rattle.intake_process.specs.Process.{ServesBy, CountsRefusal};

use crate::beginning::{Totals, begin, parted};
use crate::fault::{Refusal, is_of_others, leaves_doubt};
use crate::turning::turn_away;
use connection_hall::{Sockets, Stream};
use database_places::{Holding, Opening, Place, close, give_up, held_in, open, remove_new_log};
use gateway_rounds::{Note, Port, answer_ready, turn_away as turn_all_away};
use gateway_server::{Served, serve};
use http_wire::{Sink, Source};
use intake_core::{Intake, Moment};
use register_extracts::Why;
use sqlite::{Alter, Error, FileStore};
use sqlite_disk::Disk;
use std::alloc::Global;

/// What came of a close.
#[derive(Drop)]
pub struct Closed {
    /// How many requests are kept.
    pub kept: u64,
    /// Why what was committed is not all in the database file, but in the log still, if it isn't.
    pub outcome: Result<(), Error>,
}

/// Who answered a connection, or what waited on a port.
#[derive(Clone, Copy, Debug, PartialEq, Eq)]
pub enum AnsweredBy {
    /// The intake.
    Served,
    /// The intake, whose database refused a call.
    Failed,
    /// No intake: the register is closed.
    TurnedAway,
}

/// What came of answering a connection.
#[derive(Drop)]
pub struct Answered {
    pub served: Served,
    pub outcome: AnsweredBy,
}

/// Serves a connection, and says whether the database refused a call.
fn serve_by<R: Source, W: Sink, S: Alter>(
    alloc: Global,
    reader: &mut R,
    writer: &mut W,
    intake: &mut Intake<S>,
) -> Answered
    ensures { ServesBy S.Store (wire R.Source W.Sink reader.old writer.old)
        (wire R.Source W.Sink reader.new writer.new) intake.old intake.new result }
{
    let served = serve(alloc, reader, writer, intake);
    // Running out of memory is no refusal of the database, and leaves the intake up.
    let outcome = if intake.is_down() {
        AnsweredBy::Failed
    } else {
        AnsweredBy::Served
    };
    Answered { served, outcome }
}

/// Answers what waits on a port, and says whether the database refused a call.
fn answer_by<T: Stream<Note = Note> + Drop, K: Sockets<Stream = T> + Drop, S: Alter>(
    port: &mut Port<T, K>,
    intake: &mut Intake<S>,
    moment: Moment,
) -> AnsweredBy
    ensures answers { AnswersRound T.Stream S.Store (view_port K.traffic port.old) (view_port K.traffic port.new)
        intake.old
        intake.new }
    ensures failed { (result ≡ AnsweredBy.Failed) ↔ (has_stopped intake.new ≡ true) }
    ensures other { result ≢ AnsweredBy.TurnedAway }
{
    answer_ready(port, intake, moment);
    if intake.is_down() {
        AnsweredBy::Failed
    } else {
        AnsweredBy::Served
    }
}

/// How many calls were refused, with one more if the database refused one for this connection.
fn refused_with(outcome: AnsweredBy, refused_calls: u64) -> u64
    ensures { CountsRefusal outcome refused_calls result }
{
    match outcome {
        AnsweredBy::Failed => refused_calls.saturating_add(1),
        AnsweredBy::Served => refused_calls,
        AnsweredBy::TurnedAway => refused_calls,
    }
}

/// The intake of a register that lies in a place: open, or closed. It and `OutboxProcess` are two types: the contract
/// of a generic one would name what it holds by members of a trait, to be looked up first.
#[derive(Drop)]
pub struct IntakeProcess<D: Disk + Drop, P: Place<D> + Drop> {
    pub(crate) place: P,
    /// `None` while the process is closed.
    intake: Option<Intake<FileStore<D>>>,
    /// Whether no close and no making failed, and no opening took the files and got no database. After one that did,
    /// what lies in the place may be what a crash leaves.
    pub(crate) is_certain: bool,
    /// How many calls its database refused, as far as this counts.
    refused_calls: u64,
}

impl<D: Disk + Drop, P: Place<D> + Drop> IntakeProcess<D, P> {
    ghost use Rattle.intake_process.specs.Process.{parts, OpensProcess, AnswersWire, AnswersPort, ClosesProcess};
    ghost use Rattle.intake_process.specs.Lending.{LendsIntake};

    /// The intake of the register that lies in this place, or will be made there. It is closed.
    pub fn new(place: P) -> IntakeProcess<D, P>
        ensures { parts P.lying result
            ≡ record { intake = None; lying = P.lying place; is_certain = true; refused_calls = 0 } }
    {
        IntakeProcess {
            place,
            intake: None,
            is_certain: true,
            refused_calls: 0,
        }
    }

    /// The place.
    pub fn place(&self) -> &P
        ensures { P.lying result.now ≡ P.lying self.now.place }
    {
        &self.place
    }

    pub fn is_open(&self) -> bool
        ensures { result ≡ is_some self.now.intake }
    {
        self.intake.is_some()
    }

    /// The intake, if it is open.
    pub fn intake(&self) -> Option<&Intake<FileStore<D>>>
        ensures { option_map (λ intake. intake.now) result ≡ self.now.intake }
    {
        match &self.intake {
            Some(intake) => Some(intake),
            None => None,
        }
    }

    /// The intake, if it is open, for calls.
    pub fn intake_mut(&mut self) -> Option<&mut Intake<FileStore<D>>>
        ensures* writes_back { sem 𝓛 (LendsIntake D.row P.row D.Disk self.entry result) }
        ensures value { option_copied_mut result ≡ self.old.intake }
    {
        self.intake.as_mut()
    }

    /// Opens it, if it is closed, and says how much the register holds then. It keeps at most `limit` keys. A refusal
    /// leaves the files in the place, and leaves the database in them as it was, whatever that is, if no register was
    /// being made in it.
    pub fn open(
        &mut self,
        alloc: Global,
        opening: Opening,
        limit: u64,
    ) -> Result<Option<Totals>, Refusal>
        requires { limit ≤ 2 ^ 62 }
        ensures { OpensProcess D.Disk (is_found opening) limit (parts P.lying self.old) (parts P.lying self.new)
            result }
    {
        if self.intake.is_some() {
            return Ok(None);
        }
        let had_log = self.place.has_log();
        let conn = match open(alloc, &mut self.place, opening) {
            Ok(conn) => conn,
            Err(unopened) => {
                let why = Why::Files(unopened.fault);
                self.is_certain &= !leaves_doubt(unopened.was_taken, why);
                return Err(Refusal {
                    why,
                    holding: Holding::Nothing,
                });
            }
        };
        match begin(alloc, conn, opening, limit) {
            Ok((intake, totals)) => {
                self.intake = Some(intake);
                Ok(Some(totals))
            }
            Err((why, back)) => {
                self.is_certain &= !leaves_doubt(true, why);
                let holding = held_in(&back);
                give_up(&mut self.place, back);
                if is_of_others(why) {
                    remove_new_log(&mut self.place, had_log);
                }
                Err(Refusal { why, holding })
            }
        }
    }

    /// Serves a connection, or turns it away while the register is closed.
    pub fn answer<R: Source, W: Sink>(
        &mut self,
        alloc: Global,
        reader: &mut R,
        writer: &mut W,
    ) -> Answered
        ensures { AnswersWire (wire R.Source W.Sink reader.old writer.old)
            (wire R.Source W.Sink reader.new writer.new) (parts P.lying self.old) (parts P.lying self.new) result }
    {
        match &mut self.intake {
            Some(intake) => {
                let answered = serve_by(alloc, reader, writer, intake);
                self.refused_calls = refused_with(answered.outcome, self.refused_calls);
                answered
            }
            None => Answered {
                served: turn_away(alloc, reader, writer),
                outcome: AnsweredBy::TurnedAway,
            },
        }
    }

    /// Answers what waits on a port, all of which came by this moment, or turns it away while the register is closed.
    pub fn answer_port<T: Stream<Note = Note> + Drop, K: Sockets<Stream = T> + Drop>(
        &mut self,
        port: &mut Port<T, K>,
        moment: Moment,
    ) -> AnsweredBy
        ensures { AnswersPort T.Stream (view_port K.traffic port.old) (view_port K.traffic port.new)
            (parts P.lying self.old)
            (parts P.lying self.new) result }
    {
        match &mut self.intake {
            Some(intake) => {
                let by = answer_by(port, intake, moment);
                self.refused_calls = refused_with(by, self.refused_calls);
                by
            }
            None => {
                turn_all_away(port);
                AnsweredBy::TurnedAway
            }
        }
    }

    /// How many requests the register keeps; `None` while it is closed.
    pub fn kept(&self) -> Option<u64>
        ensures { result ≡ option_map (λ intake. (store_of intake).kept) self.now.intake }
    {
        match &self.intake {
            Some(intake) => Some(intake.kept()),
            None => None,
        }
    }

    /// Closes it, if it is open, and leaves the files in the place in any case.
    pub fn close(&mut self) -> Closed
        ensures { ClosesProcess D.Disk (parts P.lying self.old) (parts P.lying self.new) result }
    {
        match self.intake.take() {
            Some(intake) => {
                let (kept, conn) = parted(intake);
                let outcome = close(&mut self.place, conn);
                if outcome.is_err() {
                    self.is_certain = false;
                }
                Closed { kept, outcome }
            }
            None => Closed {
                kept: 0,
                outcome: Ok(()),
            },
        }
    }
}
