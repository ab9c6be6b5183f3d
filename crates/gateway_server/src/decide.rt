//! What a message gets: its mark, and its reply.

ghost use Rattle.std.specs.Prelude.{◌≡◌, ◌≤◌, length, map, true, None, Some, IfOk};
ghost use Rattle.std.specs.Option.{option_to_list};
ghost use Rattle.key_string.specs.Filer.{is_filer};
ghost use Rattle.http_messages.specs.Head.{max_body_len};
ghost use Rattle.http_messages.specs.Posting.{IsTarget};
ghost use Rattle.http_messages.specs.Replies.{reply_parts};
ghost use Rattle.filing_model.specs.Text.{ListFilings as AsksList, FileReport as AsksFiling, bare};
ghost use Rattle.filing_model.specs.Reply.{list_reply as listed_reply};
ghost use Rattle.filing_model.specs.Views.{the_request, view_row};
ghost use Rattle.gateway_requests.specs.Route.{view_route, HasFiler};
ghost use Rattle.intake_core.specs.Held.{limit_of, KeepsSetting, IsTransition};
ghost use Rattle.intake_core.specs.Moments.{moment_of};
ghost use Rattle.gateway_server.specs.Decided.{rejection_reply, Decides, IsOfGiven, IsUnavailable, IsPhrased};
ghost use Rattle.gateway_server.specs.Decided.{DecidesNothing, IsSubmitted, Leaves};

use filing_model::{FilingRow, Mark};
use gateway_requests::{Rejection, Route};
use http_wire::{Kind, Reply};
use intake_core::{Answer, Intake, Unavailable, list_reply, reply_of, word_reply};
use key_string::KeyText;
use sqlite::Alter;
use std::alloc::{AllocError, Global};

/// A mark, and the reply to its message, unless there was no memory for the reply.
#[derive(Drop)]
pub struct Decided {
    pub mark: Mark,
    pub reply: Result<Reply, AllocError>,
}

/// Answers a message with this body and this route. A request to file has the moment that `Intake::date` said last, and
/// of anything else nothing is decided.
pub fn decide_route<S: Alter>(
    alloc: Global,
    intake: &mut Intake<S>,
    route: Route<'_>,
    body: &[u8],
    is_bare: bool,
) -> Decided
    requires filer { HasFiler route }
    requires body { length body.now ≤ max_body_len }
    ensures decided { IsTransition S.Store intake.old intake.new (λ old_style before after.
        Decides (limit_of intake.old) old_style before after (bare is_bare (view_route route.entry body.now)) result) }
    ensures leaves { Leaves S.Store (view_route route.entry body.now) intake.old intake.new result }
    ensures phrase { IsPhrased result }
    ensures setting { KeepsSetting S.Store intake.old intake.new }
{
    match route {
        Route::Reject(why) => Decided {
            mark: Mark::NotFiled,
            reply: rejection_reply(alloc, why, is_bare),
        },
        Route::ListFilings(filer, None) => list(alloc, intake, filer),
        Route::ListFilings(filer, Some(number)) => show(alloc, intake, filer, number),
        Route::FileReport(filer, target, key) => file(alloc, intake, filer, target, &key, body),
    }
}

fn rejection_reply(alloc: Global, why: Rejection, is_bare: bool) -> Result<Reply, AllocError>
    ensures { IfOk result (λ r. reply_parts r ≡ rejection_reply why is_bare) }
{
    if is_bare {
        Ok(Reply {
            status: why.status(),
            content: Vec::new(alloc),
            kind: Kind::Problem,
        })
    } else {
        word_reply(alloc, why.status(), why.word())
    }
}

/// The reply with a filer's list.
fn list<S: Alter>(alloc: Global, intake: &mut Intake<S>, filer: &str) -> Decided
    ensures decided { IsTransition S.Store intake.old intake.new (λ old_style before after.
        Decides (limit_of intake.old) old_style before after (AsksList filer.now None) result) }
    ensures leaves { DecidesNothing S.Store intake.old intake.new result }
    ensures phrase { IsPhrased result }
    ensures setting { KeepsSetting S.Store intake.old intake.new }
{
    match intake.list(filer) {
        Ok(rows) => Decided {
            mark: Mark::NotFiled,
            reply: list_reply(alloc, &rows),
        },
        Err(_) => unavailable(alloc),
    }
}

/// The list that has this filing alone, or none.
fn row_reply(alloc: Global, row: Option<FilingRow>) -> Result<Reply, AllocError>
    ensures { IfOk result (λ r. reply_parts r ≡ listed_reply (map view_row (option_to_list row))) }
{
    match row {
        Some(row) => list_reply(alloc, &[row]),
        None => list_reply(alloc, &[]),
    }
}

/// The reply with the filer's filing of this number.
fn show<S: Alter>(alloc: Global, intake: &mut Intake<S>, filer: &str, number: u64) -> Decided
    ensures decided { IsTransition S.Store intake.old intake.new (λ old_style before after.
        Decides (limit_of intake.old) old_style before after (AsksList filer.now (Some number)) result) }
    ensures leaves { DecidesNothing S.Store intake.old intake.new result }
    ensures phrase { IsPhrased result }
    ensures setting { KeepsSetting S.Store intake.old intake.new }
{
    match intake.filing(filer, number) {
        Ok(row) => Decided {
            mark: Mark::NotFiled,
            reply: row_reply(alloc, row),
        },
        Err(_) => unavailable(alloc),
    }
}

/// Files a report.
fn file<S: Alter>(
    alloc: Global,
    intake: &mut Intake<S>,
    filer: &str,
    target: Option<u64>,
    key: &KeyText,
    body: &[u8],
) -> Decided
    requires filer { is_filer filer.now ≡ true }
    requires target { IsTarget target }
    requires body { length body.now ≤ max_body_len }
    ensures decided { IsTransition S.Store intake.old intake.new (λ old_style before after.
        Decides (limit_of intake.old) old_style before after
        (AsksFiling (the_request filer.now key.now target body.now)) result) }
    ensures leaves { IsSubmitted S.Store (the_request filer.now key.now target body.now) (moment_of intake.old)
        intake.old intake.new result }
    ensures phrase { IsPhrased result }
    ensures setting { KeepsSetting S.Store intake.old intake.new }
{
    decided_by(alloc, &intake.submit(filer, target, key, body))
}

/// The mark and the reply for a request to file to which the intake answered so.
pub fn decided_by(alloc: Global, given: &Result<Answer, Unavailable>) -> Decided
    ensures given { IsOfGiven given.now result }
    ensures phrase { IsPhrased result }
{
    match given {
        Ok(answer) => Decided {
            mark: Mark::Done,
            reply: reply_of(alloc, answer),
        },
        Err(_) => unavailable(alloc),
    }
}

fn unavailable(alloc: Global) -> Decided
    ensures { IsUnavailable result }
{
    Decided {
        mark: Mark::Unavailable,
        reply: word_reply(alloc, 503, "unavailable"),
    }
}
