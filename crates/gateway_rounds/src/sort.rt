//! What waits sorted: what needs no commit is decided, and the rest is to be kept.

ghost use Rattle.std.specs.Prelude.{◌≡◌, ◌≤◌, length, true, IsSome};
ghost use Rattle.std.specs.Option.{ForSome};
ghost use Rattle.key_string.specs.Filer.{is_filer};
ghost use Rattle.http_messages.specs.Head.{max_body_len};
ghost use Rattle.http_messages.specs.Message.{Read as ReadArrival};
ghost use Rattle.http_messages.specs.Posting.{IsTarget};
ghost use Rattle.connection_hall.specs.Running.{arrival_at};
ghost use Rattle.filing_model.specs.Text.{FileReport as AsksFiling, route};
ghost use Rattle.filing_model.specs.Views.{the_request};
ghost use Rattle.gateway_requests.specs.Route.{view_message};
ghost use Rattle.intake_core.specs.Held.{limit_of};
ghost use Rattle.gateway_rounds.specs.Groups.{IsSorted, IsSortedAfter, LooksUp};

use crate::new::New;
use crate::verdict::{Verdict, copy_of, decide_asked, refused};
use connection_hall::{Arrived, Hall, Stream};
use gateway_requests::{Route, route_of};
use gateway_server::decided_by;
use http_wire::Message;
use intake_core::{Intake, Looked, Request};
use key_string::KeyText;
use sqlite::Alter;
use std::alloc::{AllocError, Global};

/// What waits in a place, once it was routed and looked up.
#[derive(Drop)]
pub(crate) enum Sorted {
    /// It needed no commit, and was decided.
    AtOnce(Verdict),
    /// It is to be kept.
    Filing(New),
}

/// Routes what waits in a place, once, and looks up what it asks to file, once. What needs no commit is decided.
pub(crate) fn sort<T: Stream + Drop, S: Alter>(
    alloc: Global,
    hall: &Hall<T>,
    place: usize,
    intake: &mut Intake<S>,
) -> Result<Sorted, AllocError>
    requires { IsSome (arrival_at hall.now place) }
    ensures sorted { IsSorted hall.now place result }
    ensures looks { ForSome (arrival_at hall.now place) (λ arrival. LooksUp S.Store (λ old_style before.
        IsSortedAfter (limit_of intake.old) old_style before hall.now arrival result) intake.old intake.new) }
{
    match hall.request(place) {
        Some(Arrived::Request(request)) => sort_request(alloc, hall, &request, place, intake),
        Some(Arrived::Refused(refusal)) => Ok(Sorted::AtOnce(refused(alloc, refusal))),
        None => unreachable!(),
    }
}

/// Sorts a request.
fn sort_request<T: Stream + Drop, S: Alter>(
    alloc: Global,
    hall: &Hall<T>,
    request: &Message,
    place: usize,
    intake: &mut Intake<S>,
) -> Result<Sorted, AllocError>
    requires body { length request.now.body.now ≤ max_body_len }
    requires waits { arrival_at hall.now place ≡ Some (ReadArrival (view_message request.now)) }
    ensures sorted { IsSorted hall.now place result }
    ensures looks { LooksUp S.Store (λ old_style before. IsSortedAfter (limit_of intake.old) old_style before hall.now
        (ReadArrival (view_message request.now)) result) intake.old intake.new }
{
    match route_of(alloc, request)? {
        Route::FileReport(filer, target, key) => {
            sort_filing(alloc, hall, request, place, filer, target, key, intake)
        }
        Route::ListFilings(filer, number) => Ok(Sorted::AtOnce(decide_asked(
            alloc,
            request,
            Route::ListFilings(filer, number),
            intake,
        ))),
        Route::Reject(why) => Ok(Sorted::AtOnce(decide_asked(
            alloc,
            request,
            Route::Reject(why),
            intake,
        ))),
    }
}

/// Sorts a request to file a report.
fn sort_filing<T: Stream + Drop, S: Alter>(
    alloc: Global,
    hall: &Hall<T>,
    request: &Message,
    place: usize,
    filer: &str,
    target: Option<u64>,
    key: KeyText,
    intake: &mut Intake<S>,
) -> Result<Sorted, AllocError>
    requires body { length request.now.body.now ≤ max_body_len }
    requires waits { arrival_at hall.now place ≡ Some (ReadArrival (view_message request.now)) }
    requires filer { is_filer filer.now ≡ true }
    requires target { IsTarget target }
    requires asked { route (view_message request.now)
        ≡ AsksFiling (the_request filer.now key target request.now.body.now) }
    ensures sorted { IsSorted hall.now place result }
    ensures looks { LooksUp S.Store (λ old_style before. IsSortedAfter (limit_of intake.old) old_style before hall.now
        (ReadArrival (view_message request.now)) result) intake.old intake.new }
{
    let looked = intake.look_up(&Request {
        filer,
        key: &key,
        target,
        body: request.body,
    });
    let is_new = match looked {
        Looked::Repeat(answer) => {
            return Ok(Sorted::AtOnce(Verdict {
                decided: decided_by(alloc, &Ok(answer)),
                closes: request.head.closes(),
                filer: copy_of(alloc, filer),
            }));
        }
        Looked::New => true,
        Looked::Unknown => false,
    };
    Ok(Sorted::Filing(New {
        place,
        filer: String::from_str(alloc, filer)?,
        target,
        key,
        len: request.body.len(),
        closes: request.head.closes(),
        is_new,
    }))
}
