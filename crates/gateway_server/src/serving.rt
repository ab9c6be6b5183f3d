//! Serving a connection: its arrivals are read one after another and answered.

ghost use Rattle.std.specs.Prelude.{◌≡◌, ◌≢◌, ◌+◌, ℕ, List, Some, None, IfOk, IfSome, false, vec_len};
ghost use Rattle.http_wire.specs.Inbox.{LendsFirst, is_over};
ghost use Rattle.http_wire.specs.Wire.{Wire, wire};
ghost use Rattle.http_messages.specs.Replies.{reply_parts};
ghost use Rattle.http_messages.specs.Reply.{render};
ghost use Rattle.http_wire.specs.declared.inbox.Inbox.{Inbox};
ghost use Rattle.filing_model.specs.Request.{Request};
ghost use Rattle.filing_model.specs.Serving.{Keeping, keeping};
ghost use Rattle.filing_model.specs.Stopping.{ComeBefore};
ghost use Rattle.intake_core.specs.Held.{limit_of, KeepsSetting, IsTransition};
ghost use Rattle.gateway_server.specs.Decided.{IsPhrased};
ghost use Rattle.gateway_server.specs.Progress.{with_written, GoesOn, HasMessage, HasRefusal, ReadsSome, TellsEnd};
ghost use Rattle.gateway_server.specs.Progress.{ServesToEnd};
ghost use Rattle.gateway_server.specs.Stopping.{view_stop, ServesUpTo, IsCountUntil, IsEndedOrStoppedBy, Continues};
ghost use Rattle.gateway_server.specs.Stopping.{StopsOrEnds, IsCountAt, IsTurnBy, IsTurnByReply, TellsTurn, Replies};
ghost use Rattle.gateway_server.specs.Stopping.{IsStoppedAfter, end_of};
ghost use Rattle.gateway_server.specs.Written.{WritesTexts};

use crate::answer::{mark, mark_refusal, write_decided};
use crate::decide::Decided;
use crate::stop::Stop;
use filing_model::{Ended, Mark};
use http_wire::{ConnFault, Inbox, Next, Refusal, Sink, Source};
use intake_core::{Intake, Moment};
use sqlite::Alter;
use std::alloc::Global;

/// What serving a connection came to.
#[derive(Drop)]
pub struct Served {
    /// A mark for each request that was read, and for what was refused in the place of one.
    pub marks: Vec<Mark>,
    pub ended: Ended,
}

/// What serving a connection came to that may be stopped at one of its requests.
#[derive(Drop)]
pub struct Partly {
    /// A mark for each request that was decided, and for what was refused in the place of one.
    pub marks: Vec<Mark>,
    /// How the connection ended; `None` if it was stopped.
    pub ended: Option<Ended>,
}

/// What became of one arrival.
#[derive(Drop)]
enum Turn {
    /// The connection goes on.
    On,
    /// The connection was stopped at this arrival.
    Stopped,
    Ended(Ended),
}

/// Serves a connection up to its end: reads its requests one after another, decides each on the intake, and writes the
/// replies. A failed write says how many bytes it took of the reply, or of the interim response, in which it failed.
pub fn serve<R: Source, W: Sink, S: Alter>(
    alloc: Global,
    reader: &mut R,
    writer: &mut W,
    intake: &mut Intake<S>,
) -> Served
    ensures { ServesToEnd S.Store (wire R.Source W.Sink reader.old writer.old)
        (wire R.Source W.Sink reader.new writer.new) intake.old intake.new result }
{
    let partly = serve_until(alloc, reader, writer, intake, Stop::Never);
    Served {
        marks: partly.marks,
        ended: partly.ended.unwrap(),
    }
}

/// Serves a connection as `serve` does, up to its end or to a stop. Stopped before a request, it has
/// read that whole, written the interim response that it asks for, and decided nothing of it. Stopped
/// after one, it has decided and marked it too, and written nothing of its reply. A connection that
/// ends before it comes to the stop isn't stopped.
pub fn serve_until<R: Source, W: Sink, S: Alter>(
    alloc: Global,
    reader: &mut R,
    writer: &mut W,
    intake: &mut Intake<S>,
    stop: Stop,
) -> Partly
    ensures { ServesUpTo S.Store (wire R.Source W.Sink reader.old writer.old)
        (wire R.Source W.Sink reader.new writer.new) intake.old intake.new stop result }
{
    let mut marks = Vec::new(alloc);
    match Inbox::new(alloc) {
        Ok(mut inbox) => {
            let ended = serve_arrivals(alloc, &mut inbox, reader, writer, intake, stop, &mut marks);
            Partly { marks, ended }
        }
        Err(_) => Partly {
            marks,
            ended: Some(Ended::Fault(ConnFault::Memory)),
        },
    }
}

/// Serves one arrival after another, and says how the connection ended unless it was stopped.
fn serve_arrivals<R: Source, W: Sink, S: Alter>(
    alloc: Global,
    inbox: &mut Inbox,
    reader: &mut R,
    writer: &mut W,
    intake: &mut Intake<S>,
    stop: Stop,
    marks: &mut Vec<Mark>,
) -> Option<Ended>
    requires over { is_over inbox.old ≡ false }
    requires count { ComeBefore (view_stop stop) (vec_len marks.old) }
    ensures serves { IsTransition S.Store intake.old intake.new (λ old_style now after.
        (before : List Request) (first : Wire)
        → GoesOn (keeping (limit_of intake.old) old_style before now) first
        (wire R.Source W.Sink reader.old writer.old) inbox.old marks.old.items
        → StopsOrEnds (keeping (limit_of intake.old) old_style before after) first
        (wire R.Source W.Sink reader.new writer.new) (view_stop stop) marks.new.items result) }
    ensures counted { IsCountUntil (view_stop stop) (vec_len marks.new) result }
    ensures setting { KeepsSetting S.Store intake.old intake.new }
    ensures fault { IsEndedOrStoppedBy (wire R.Source W.Sink reader.old writer.old)
        (wire R.Source W.Sink reader.new writer.new) result }
    ensures texts { WritesTexts (W.written writer.old) (W.written writer.new) result }
    ensures read { ReadsSome (R.left reader.old) (R.left reader.new) inbox.old inbox.new }
    ensures told { IfSome result (TellsEnd inbox.new (R.left reader.new)) }
{
    'arrivals: loop {
        match serve_arrival(alloc, inbox, reader, writer, intake, stop, marks) {
            Turn::On => {}
            Turn::Stopped => return None,
            Turn::Ended(ended) => return Some(ended),
        }
    }
}

/// Serves the next arrival. If the connection goes on, one mark was added. A request came when the last read of it
/// ended, as the reader says.
fn serve_arrival<R: Source, W: Sink, S: Alter>(
    alloc: Global,
    inbox: &mut Inbox,
    reader: &mut R,
    writer: &mut W,
    intake: &mut Intake<S>,
    stop: Stop,
    marks: &mut Vec<Mark>,
) -> Turn
    requires over { is_over inbox.old ≡ false }
    requires count { ComeBefore (view_stop stop) (vec_len marks.old) }
    ensures serves { IsTransition S.Store intake.old intake.new (λ old_style now after.
        (before : List Request) (first : Wire)
        → GoesOn (keeping (limit_of intake.old) old_style before now) first
        (wire R.Source W.Sink reader.old writer.old) inbox.old marks.old.items
        → Continues (keeping (limit_of intake.old) old_style before after) first
        (wire R.Source W.Sink reader.new writer.new) inbox.new (view_stop stop) marks.new.items result) }
    ensures more { result ≡ Turn.On → is_over inbox.new ≡ false }
    ensures one { result ≡ Turn.On → vec_len marks.new ≡ vec_len marks.old + 1 }
    ensures counted { IsCountAt (view_stop stop) (vec_len marks.new) result }
    ensures setting { KeepsSetting S.Store intake.old intake.new }
    ensures fault { IsTurnBy (wire R.Source W.Sink reader.old writer.old)
        (wire R.Source W.Sink reader.new writer.new) result }
    ensures texts { WritesTexts (W.written writer.old) (W.written writer.new) (end_of result) }
    ensures read { ReadsSome (R.left reader.old) (R.left reader.new) inbox.old inbox.new }
    ensures told { TellsTurn inbox.new (R.left reader.new) result }
{
    match inbox.next(reader, writer) {
        Ok(Next::Message) => {
            intake.date(Moment::at(reader.moment()));
            serve_message(alloc, inbox, writer, intake, stop, marks)
        }
        Ok(Next::Refuse(refusal)) => serve_refusal(alloc, refusal, writer, stop, marks),
        Ok(Next::End) => Turn::Ended(Ended::InputEnded),
        Err(fault) => Turn::Ended(Ended::Fault(fault)),
    }
}

/// Answers the message that is lent.
fn serve_message<W: Sink, S: Alter>(
    alloc: Global,
    inbox: &Inbox,
    writer: &mut W,
    intake: &mut Intake<S>,
    stop: Stop,
    marks: &mut Vec<Mark>,
) -> Turn
    requires lends { LendsFirst inbox.now }
    requires count { ComeBefore (view_stop stop) (vec_len marks.old) }
    ensures serves { IsTransition S.Store intake.old intake.new (λ old_style now after.
        (before : List Request) (first beside : Wire)
        → HasMessage (keeping (limit_of intake.old) old_style before now) first
        (with_written beside (W.written writer.old)) inbox.now marks.old.items
        → Continues (keeping (limit_of intake.old) old_style before after) first
        (with_written beside (W.written writer.new)) inbox.now (view_stop stop) marks.new.items result) }
    ensures more { result ≡ Turn.On → is_over inbox.now ≡ false }
    ensures one { result ≡ Turn.On → vec_len marks.new ≡ vec_len marks.old + 1 }
    ensures counted { IsCountAt (view_stop stop) (vec_len marks.new) result }
    ensures setting { KeepsSetting S.Store intake.old intake.new }
    ensures fault { IsTurnByReply (W.write_failures writer.old) (W.write_failures writer.new) result }
    ensures texts { WritesTexts (W.written writer.old) (W.written writer.new) (end_of result) }
{
    let number = marks.len() + 1;
    if stop.is_before(number) {
        return Turn::Stopped;
    }
    let message = inbox.message();
    let decided = match mark(alloc, &message, intake, marks) {
        Ok(decided) => decided,
        Err(_) => return Turn::Ended(Ended::Fault(ConnFault::Memory)),
    };
    reply(alloc, &decided, writer, message.head.closes(), stop, number)
}

/// Answers what was refused, and closes the connection.
fn serve_refusal<W: Sink>(
    alloc: Global,
    refusal: Refusal,
    writer: &mut W,
    stop: Stop,
    marks: &mut Vec<Mark>,
) -> Turn
    requires { ComeBefore (view_stop stop) (vec_len marks.old) }
    ensures serves { (requests : Keeping) (first beside : Wire) (inbox : Inbox)
        → HasRefusal requests first (with_written beside (W.written writer.old)) inbox refusal marks.old.items
        → Continues requests first (with_written beside (W.written writer.new)) inbox (view_stop stop) marks.new.items
        result }
    ensures closes { result ≢ Turn.On }
    ensures counted { IsCountAt (view_stop stop) (vec_len marks.new) result }
    ensures fault { IsTurnByReply (W.write_failures writer.old) (W.write_failures writer.new) result }
    ensures texts { WritesTexts (W.written writer.old) (W.written writer.new) (end_of result) }
{
    let number = marks.len() + 1;
    if stop.is_before(number) {
        return Turn::Stopped;
    }
    let decided = match mark_refusal(alloc, refusal, marks) {
        Ok(decided) => decided,
        Err(_) => return Turn::Ended(Ended::Fault(ConnFault::Memory)),
    };
    reply(alloc, &decided, writer, true, stop, number)
}

/// Writes what was decided of the request of this number, unless it is stopped after that. Then the
/// connection goes on or closes.
fn reply<W: Sink>(
    alloc: Global,
    decided: &Decided,
    writer: &mut W,
    close: bool,
    stop: Stop,
    number: usize,
) -> Turn
    requires { IsPhrased decided.now }
    ensures written { (text : List ℕ) → IfOk decided.now.reply (λ r. render (reply_parts r) close ≡ text)
        → Replies (W.written writer.old) (W.written writer.new) text close result }
    ensures stops { IsStoppedAfter (view_stop stop) number result }
    ensures goes_on { result ≡ Turn.On → close ≡ false }
    ensures fault { IsTurnByReply (W.write_failures writer.old) (W.write_failures writer.new) result }
{
    if stop.is_after(number) {
        return Turn::Stopped;
    }
    match write_decided(alloc, decided, writer, close) {
        Ok(()) if close => Turn::Ended(Ended::Closed),
        Ok(()) => Turn::On,
        Err(fault) => Turn::Ended(Ended::Fault(fault)),
    }
}
