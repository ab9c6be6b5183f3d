//! What was decided of an arrival.

ghost use Rattle.std.specs.Prelude.{◌≡◌, ◌≤◌, ℕ, List, length, IfOk, MatchResult, IsSome};
ghost use Rattle.std.specs.Option.{ForSome};
ghost use Rattle.http_messages.specs.Head.{max_body_len};
ghost use Rattle.http_messages.specs.Message.{Read as ReadArrival, Refused as RefusedArrival};
ghost use Rattle.connection_hall.specs.Running.{arrival_at};
ghost use Rattle.filing_model.specs.Request.{Request};
ghost use Rattle.filing_model.specs.Text.{route, bare, is_head};
ghost use Rattle.intake_core.specs.Held.{limit_of, KeepsSetting, IsTransition};
ghost use Rattle.gateway_requests.specs.Route.{view_message, view_route, HasFiler};
ghost use Rattle.gateway_server.specs.Decided.{IsPhrased};
ghost use Rattle.gateway_rounds.specs.Places.{Decides};

use connection_hall::{Arrived, Hall, Stream};
use gateway_requests::{Route, is_head, route_of};
use gateway_server::{Decided, Mark, decide_route, refusal_reply};
use http_messages::Refusal;
use http_wire::Message;
use intake_core::Intake;
use sqlite::Alter;
use std::alloc::{AllocError, Global};

/// What was decided of an arrival, and whether its connection closes after the reply.
#[derive(Drop)]
pub(crate) struct Verdict {
    pub(crate) decided: Decided,
    pub(crate) closes: bool,
    /// Whose report it asks to be filed, if it does, and there was memory for that.
    pub(crate) filer: Option<String>,
}

/// Decides what waits in a place. If there is no memory to know what it asks for, nothing is decided.
pub(crate) fn decide_at<T: Stream + Drop, S: Alter>(
    alloc: Global,
    hall: &Hall<T>,
    place: usize,
    intake: &mut Intake<S>,
) -> Result<Verdict, AllocError>
    requires { IsSome (arrival_at hall.now place) }
    ensures decided { IsTransition S.Store intake.old intake.new (λ old_style before after. MatchResult result
        (λ verdict. ForSome (arrival_at hall.now place) (λ arrival.
        Decides (limit_of intake.old) old_style before after arrival verdict.decided verdict.closes))
        (λ _. after ≡ before)) }
    ensures phrase { IfOk result (λ verdict. IsPhrased verdict.decided) }
    ensures setting { KeepsSetting S.Store intake.old intake.new }
{
    match hall.request(place) {
        Some(Arrived::Request(request)) => decide_request(alloc, &request, intake),
        Some(Arrived::Refused(refusal)) => Ok(refused(alloc, refusal)),
        None => unreachable!(),
    }
}

/// Decides a request.
fn decide_request<S: Alter>(
    alloc: Global,
    request: &Message,
    intake: &mut Intake<S>,
) -> Result<Verdict, AllocError>
    requires { length request.now.body.now ≤ max_body_len }
    ensures decided { IsTransition S.Store intake.old intake.new (λ old_style before after. MatchResult result
        (λ verdict. Decides (limit_of intake.old) old_style before after (ReadArrival (view_message request.now))
        verdict.decided verdict.closes) (λ _. after ≡ before)) }
    ensures phrase { IfOk result (λ verdict. IsPhrased verdict.decided) }
    ensures setting { KeepsSetting S.Store intake.old intake.new }
{
    let asked = route_of(alloc, request)?;
    Ok(decide_asked(alloc, request, asked, intake))
}

/// Decides a request that asks for this.
pub(crate) fn decide_asked<S: Alter>(
    alloc: Global,
    request: &Message,
    asked: Route<'_>,
    intake: &mut Intake<S>,
) -> Verdict
    requires body { length request.now.body.now ≤ max_body_len }
    requires filer { HasFiler asked }
    requires asked { route (view_message request.now) ≡ bare (is_head (view_message request.now))
        (view_route asked request.now.body.now) }
    ensures decided { IsTransition S.Store intake.old intake.new (λ old_style before after.
        Decides (limit_of intake.old) old_style before after (ReadArrival (view_message request.now))
        result.decided result.closes) }
    ensures phrase { IsPhrased result.decided }
    ensures setting { KeepsSetting S.Store intake.old intake.new }
{
    let filer = filer_of(alloc, &asked);
    Verdict {
        decided: decide_route(alloc, intake, asked, request.body, is_head(request)),
        closes: request.head.closes(),
        filer,
    }
}

/// Whose report is to be filed, if there is memory for that.
fn filer_of(alloc: Global, asked: &Route<'_>) -> Option<String> {
    match asked {
        Route::FileReport(filer, _, _) => copy_of(alloc, filer),
        Route::Reject(_) | Route::ListFilings(_, _) => None,
    }
}

/// A copy, if there is memory for one.
pub(crate) fn copy_of(alloc: Global, text: &str) -> Option<String> {
    String::from_str(alloc, text).ok()
}

/// What was refused in the place of a request.
pub(crate) fn refused(alloc: Global, refusal: Refusal) -> Verdict
    ensures decided { (limit : ℕ) (old_style before : List Request)
        → Decides limit old_style before before (RefusedArrival refusal) result.decided result.closes }
    ensures phrase { IsPhrased result.decided }
{
    Verdict {
        decided: Decided {
            mark: Mark::NotFiled,
            reply: refusal_reply(alloc, refusal),
        },
        closes: true,
        filer: None,
    }
}
