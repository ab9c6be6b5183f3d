//! One arrival answered: it is decided and marked, and then its reply is written.

ghost use Rattle.std.specs.Prelude.{◌≡◌, ◌<◌, ◌≤◌, ◌+◌, ℕ, List, length, vec_len, vec_capacity, IfOk, IfErr, OnOk};
ghost use Rattle.std.specs.Prelude.{IsSome, MatchResult};
ghost use Rattle.http_messages.specs.Head.{max_body_len};
ghost use Rattle.http_messages.specs.Message.{Read as ReadArrival, Refused as RefusedArrival};
ghost use Rattle.http_messages.specs.Replies.{reply_parts};
ghost use Rattle.http_messages.specs.Reply.{phrase, render};
ghost use Rattle.filing_model.specs.Request.{Request};
ghost use Rattle.filing_model.specs.Text.{route, bare, is_head, refusal_reply, fault_reply};
ghost use Rattle.intake_core.specs.Held.{limit_of, KeepsSetting, IsTransition};
ghost use Rattle.gateway_server.specs.Decided.{IsPhrased};
ghost use Rattle.gateway_server.specs.Answered.{IsDecided, Marks, WritesText, IsReplyFault};
ghost use Rattle.gateway_requests.specs.Route.{view_message, view_route, HasFiler};

use crate::decide::{Decided, decide_route};
use filing_model::Mark;
use gateway_requests::{Route, is_head, route_of};
use http_wire::{ConnFault, HeadFault, Message, Refusal, Reply, Sink, write_reply};
use intake_core::{Intake, word_reply};
use sqlite::Alter;
use std::alloc::{AllocError, Global};

/// Decides a message and marks it. If memory runs out before it is decided, it has no mark.
pub(crate) fn mark<S: Alter>(
    alloc: Global,
    message: &Message,
    intake: &mut Intake<S>,
    marks: &mut Vec<Mark>,
) -> Result<Decided, AllocError>
    requires { length message.now.body.now ≤ max_body_len }
    ensures marked { IsTransition S.Store intake.old intake.new (λ old_style before after.
        Marks (limit_of intake.old) old_style before after (ReadArrival (view_message message.now)) marks.old.items
        marks.new.items result) }
    ensures phrase { IfOk result IsPhrased }
    ensures counted { MatchResult result (λ _. vec_len marks.new ≡ vec_len marks.old + 1) (λ _.
        vec_len marks.new ≡ vec_len marks.old) }
    ensures setting { KeepsSetting S.Store intake.old intake.new }
{
    marks.reserve(1)?;
    let asked = route_of(alloc, message)?;
    Ok(mark_route(alloc, message, asked, intake, marks))
}

/// Decides and marks a message with this route.
fn mark_route<S: Alter>(
    alloc: Global,
    message: &Message,
    asked: Route<'_>,
    intake: &mut Intake<S>,
    marks: &mut Vec<Mark>,
) -> Decided
    requires room { vec_len marks.old < vec_capacity marks.old }
    requires body { length message.now.body.now ≤ max_body_len }
    requires filer { HasFiler asked }
    requires asked { route (view_message message.now) ≡ bare (is_head (view_message message.now))
        (view_route asked message.now.body.now) }
    ensures marked { IsTransition S.Store intake.old intake.new (λ old_style before after.
        IsDecided (limit_of intake.old) old_style before after (ReadArrival (view_message message.now)) marks.old.items
        marks.new.items result) }
    ensures phrase { IsPhrased result }
    ensures counted { vec_len marks.new ≡ vec_len marks.old + 1 }
    ensures setting { KeepsSetting S.Store intake.old intake.new }
{
    let decided = decide_route(alloc, intake, asked, message.body, is_head(message));
    marks.push_reserved(decided.mark);
    decided
}

/// Marks what was refused in the place of a message.
pub(crate) fn mark_refusal(
    alloc: Global,
    refusal: Refusal,
    marks: &mut Vec<Mark>,
) -> Result<Decided, AllocError>
    ensures marked { (limit : ℕ) (old_style before : List Request)
        → Marks limit old_style before before (RefusedArrival refusal) marks.old.items marks.new.items result }
    ensures phrase { IfOk result IsPhrased }
    ensures counted { MatchResult result (λ _. vec_len marks.new ≡ vec_len marks.old + 1) (λ _.
        vec_len marks.new ≡ vec_len marks.old) }
{
    marks.reserve(1)?;
    marks.push_reserved(Mark::NotFiled);
    Ok(Decided {
        mark: Mark::NotFiled,
        reply: refusal_reply(alloc, refusal),
    })
}

/// Writes what was decided, if there was memory for it.
pub(crate) fn write_decided<W: Sink>(
    alloc: Global,
    decided: &Decided,
    writer: &mut W,
    close: bool,
) -> Result<(), ConnFault>
    requires { IsPhrased decided.now }
    ensures written { (text : List ℕ) → IfOk decided.now.reply (λ r. render (reply_parts r) close ≡ text)
        → WritesText (W.written writer.old) (W.written writer.new) text result }
    ensures fine { OnOk result (W.write_failures writer.new ≡ W.write_failures writer.old) }
    ensures fault { IfErr result (IsReplyFault (W.write_failures writer.old) (W.write_failures writer.new)) }
{
    match &decided.reply {
        Ok(reply) => write_reply(alloc, writer, reply, close),
        Err(_) => Err(ConnFault::Memory),
    }
}

/// The reply to what was refused in the place of a message.
pub fn refusal_reply(alloc: Global, refusal: Refusal) -> Result<Reply, AllocError>
    ensures parts { IfOk result (λ r. reply_parts r ≡ refusal_reply refusal) }
    ensures phrase { IfOk result (λ r. IsSome (phrase r.status)) }
{
    match refusal {
        Refusal::HeadTooLarge => word_reply(alloc, 431, "head-too-large"),
        Refusal::Head(fault) => fault_reply(alloc, fault),
    }
}

fn fault_reply(alloc: Global, fault: HeadFault) -> Result<Reply, AllocError>
    ensures { IfOk result (λ r. reply_parts r ≡ fault_reply fault) }
{
    match fault {
        HeadFault::Malformed | HeadFault::Host | HeadFault::Length => {
            word_reply(alloc, 400, "malformed")
        }
        HeadFault::Coding => word_reply(alloc, 501, "coding"),
        HeadFault::NoLength => word_reply(alloc, 411, "length-missing"),
        HeadFault::TooLarge => word_reply(alloc, 413, "too-large"),
        HeadFault::Memory => word_reply(alloc, 503, "unavailable"),
    }
}
