//! The second part of a round: what is kept with one commit.

ghost use Rattle.std.specs.Prelude.{◌≡◌, All, length, map, true, vec_len, IfOk, OnErr};
ghost use Rattle.intake_core.specs.Calls.{IsRequest};
ghost use Rattle.intake_core.specs.Held.{limit_of, KeepsSetting, IsTransitionIf};
ghost use Rattle.gateway_server.specs.Decided.{IsPhrased};
ghost use Rattle.gateway_server.specs.Group.{DecideInTurn};
ghost use Rattle.gateway_rounds.specs.Groups.{asked_in, places_in, AreApart, AreFound, FilesGroup, IsAskedIn};
ghost use Rattle.gateway_rounds.specs.Groups.{TellsGroup};
ghost use Rattle.gateway_rounds.specs.Ports.{port as view_port};

use crate::new::New;
use crate::note::Note;
use crate::one::{answer_one, tell};
use crate::port::Port;
use crate::verdict::copy_of;
use connection_hall::{Arrived, Hall, Sockets, Stream};
use gateway_server::{Decided, file_all};
use intake_core::{Intake, Moment, Request};
use sqlite::Alter;
use std::alloc::{AllocError, Global};

/// Keeps what is new with one commit, and answers each with what it got, in the order of the places. All came by this
/// moment. If there is no memory for what they get, each is decided and answered by itself.
pub(crate) fn file_group<T: Stream<Note = Note> + Drop, K: Sockets<Stream = T> + Drop, S: Alter>(
    port: &mut Port<T, K>,
    intake: &mut Intake<S>,
    moment: Moment,
)
    requires waits { All (IsAskedIn port.old.hall) port.old.group.items }
    requires apart { AreApart (places_in port.old.group.items) }
    ensures { FilesGroup T.Stream S.Store (view_port K.traffic port.old) (view_port K.traffic port.new)
        port.old.group.items intake.old intake.new }
{
    match decide_group(
        port.alloc,
        &port.hall,
        port.group.as_slice(),
        intake,
        moment,
    ) {
        Ok(all) => tell_group(port, all.as_slice()),
        Err(_) => answer_group(port, intake),
    }
}

/// Decides what is new, with one commit. The bodies are lent where they came.
fn decide_group<T: Stream + Drop, S: Alter>(
    alloc: Global,
    hall: &Hall<T>,
    group: &[New],
    intake: &mut Intake<S>,
    moment: Moment,
) -> Result<Vec<Decided>, AllocError>
    requires { All (IsAskedIn hall.now) group.now }
    ensures each { IfOk result (λ all. length all.items ≡ length group.now) }
    ensures phrases { IfOk result (λ all. All IsPhrased all.items) }
    ensures decided { IfOk result (λ all. IsTransitionIf S.Store (AreFound hall.now group.now) intake.old intake.new
        (λ old_style before after. DecideInTurn (limit_of intake.old) old_style before after
        (map (asked_in hall.now) group.now) all.items)) }
    ensures refused { OnErr result (intake.new ≡ intake.old) }
    ensures setting { KeepsSetting S.Store intake.old intake.new }
{
    let requests = requests_of(alloc, hall, group)?;
    let moments = moments_of(alloc, moment, group.len())?;
    file_all(
        alloc,
        intake,
        requests.as_slice(),
        moments.as_slice(),
        are_new(group),
    )
}

/// Whether each was looked up and found to be new.
fn are_new(group: &[New]) -> bool
    ensures { result ≡ true → All (λ new. new.is_new ≡ true) group.now }
{
    for at in 0..group.len() {
        if !group[at].is_new {
            return false;
        }
    }
    true
}

/// The requests.
fn requests_of<'a, T: Stream + Drop>(
    alloc: Global,
    hall: &'a Hall<T>,
    group: &'a [New],
) -> Result<Vec<Request<'a>>, AllocError>
    requires { All (IsAskedIn hall.now) group.now }
    ensures are { IfOk result (λ requests. requests.items ≡ map (asked_in hall.now) group.now) }
    ensures requests { IfOk result (λ requests. All IsRequest requests.items) }
{
    let mut requests = Vec::new(alloc);
    for new in group {
        requests.push(request_in(hall, new))?;
    }
    Ok(requests)
}

/// What is new, as it waits.
fn request_in<'a, T: Stream + Drop>(hall: &'a Hall<T>, new: &'a New) -> Request<'a>
    requires { IsAskedIn hall.now new.now }
    ensures is { result ≡ asked_in hall.now new.now }
    ensures request { IsRequest result }
{
    match hall.request(new.place) {
        Some(Arrived::Request(request)) => Request {
            filer: new.filer.as_str(),
            key: &new.key,
            target: new.target,
            body: request.body,
        },
        _ => unreachable!(),
    }
}

/// The moment, so many times.
fn moments_of(alloc: Global, moment: Moment, count: usize) -> Result<Vec<Moment>, AllocError>
    ensures { IfOk result (λ moments. vec_len moments ≡ count) }
{
    let mut moments = Vec::new(alloc);
    for _ in 0..count {
        moments.push(moment)?;
    }
    Ok(moments)
}

/// Answers what is new with what was decided of it.
fn tell_group<T: Stream<Note = Note> + Drop, K: Sockets<Stream = T> + Drop>(
    port: &mut Port<T, K>,
    all: &[Decided],
)
    requires each { length all.now ≡ length port.old.group.items }
    requires phrases { All IsPhrased all.now }
    requires waits { All (IsAskedIn port.old.hall) port.old.group.items }
    requires apart { AreApart (places_in port.old.group.items) }
    ensures { TellsGroup T.Stream (view_port K.traffic port.old) (view_port K.traffic port.new)
        port.old.group.items all.now }
{
    for at in 0..all.len() {
        let new = &port.group[at];
        let place = new.place;
        let closes = new.closes;
        let filer = copy_of(port.alloc, new.filer.as_str());
        tell(port, place, &all[at], closes, filer);
    }
}

/// Decides and answers what is new, each by itself.
fn answer_group<T: Stream<Note = Note> + Drop, K: Sockets<Stream = T> + Drop, S: Alter>(
    port: &mut Port<T, K>,
    intake: &mut Intake<S>,
)
    requires waits { All (IsAskedIn port.old.hall) port.old.group.items }
    requires apart { AreApart (places_in port.old.group.items) }
    ensures { FilesGroup T.Stream S.Store (view_port K.traffic port.old) (view_port K.traffic port.new)
        port.old.group.items intake.old intake.new }
{
    for at in 0..port.group.len() {
        let place = port.group[at].place;
        answer_one(port, intake, place);
    }
}
