//! What waits turned away, since the register is closed.

ghost use Rattle.std.specs.Prelude.{◌≡◌, [], true, IfOk, IsSome, if◌then◌else◌};
ghost use Rattle.std.specs.Option.{ForSome};
ghost use Rattle.http_messages.specs.Reply.{render};
ghost use Rattle.connection_hall.specs.Running.{arrival_at};
ghost use Rattle.filing_model.specs.Reply.{unavailable};
ghost use Rattle.gateway_rounds.specs.Away.{AnswersAway, away_mark, away_reply, closing_reply};
ghost use Rattle.gateway_rounds.specs.AwayTurns.{TurnsPlaceAway};
ghost use Rattle.gateway_rounds.specs.Ports.{port as view_port};

use crate::note::Note;
use crate::one::tell_text;
use crate::port::Port;
use connection_hall::{Arrived, Hall, Sockets, Stream};
use gateway_requests::is_head;
use gateway_server::Mark;
use http_messages::{Kind, Reply, reply_text};
use intake_core::word_reply;
use std::alloc::{AllocError, Global};

/// Answers what waits that there is no register, in the order of the places, and closes its connections. If there is
/// no memory for the reply, the connection is over.
pub fn turn_away<T: Stream<Note = Note> + Drop, K: Sockets<Stream = T> + Drop>(
    port: &mut Port<T, K>,
)
    ensures { AnswersAway T.Stream (view_port K.traffic port.old) (view_port K.traffic port.new) }
{
    let mut from = 0;
    'places: loop {
        let Some(place) = port.hall.ready(from) else {
            return;
        };
        turn_away_one(port, place);
        from = place + 1;
    }
}

/// Answers what waits in a place that there is no register.
fn turn_away_one<T: Stream<Note = Note> + Drop, K: Sockets<Stream = T> + Drop>(
    port: &mut Port<T, K>,
    place: usize,
)
    requires { IsSome (arrival_at port.old.hall place) }
    ensures { TurnsPlaceAway T.Stream place (view_port K.traffic port.old) (view_port K.traffic port.new) }
{
    let (mark, is_head) = away(&port.hall, place);
    let Ok(text) = closing_text(port.alloc, is_head) else {
        port.hall.give_up(&mut port.sockets, place);
        return;
    };
    let note = Note {
        mark,
        status: 503,
        closes: true,
        filer: None,
    };
    tell_text(port, place, text.as_slice(), true, &note);
}

/// The mark of what waits in a place and is turned away, and whether it is a HEAD.
fn away<T: Stream + Drop>(hall: &Hall<T>, place: usize) -> (Mark, bool)
    requires { IsSome (arrival_at hall.now place) }
    ensures { ForSome (arrival_at hall.now place) (λ arrival. (result.0 ≡ away_mark arrival)
        × (closing_reply result.1 ≡ away_reply arrival)) }
{
    match hall.request(place) {
        Some(Arrived::Request(request)) => (Mark::Unavailable, is_head(&request)),
        Some(Arrived::Refused(_)) => (Mark::NotFiled, false),
        None => unreachable!(),
    }
}

/// The reply that says that there is no register, and closes.
#[tactic(auto, unfolding(http_messages::specs::Reply::phrase))]
fn closing_text(alloc: Global, is_head: bool) -> Result<Vec<u8>, AllocError>
    ensures { IfOk result (λ text. text.items ≡ render (closing_reply is_head) true) }
{
    let reply = Reply {
        status: 503,
        content: content(alloc, is_head)?,
        kind: Kind::Problem,
    };
    reply_text(alloc, &reply, true)
}

/// The content of that reply. One to HEAD has none (RFC 9110, section 9.3.2).
fn content(alloc: Global, is_head: bool) -> Result<Vec<u8>, AllocError>
    ensures { IfOk result (λ content. content.items ≡ (if is_head then [] else unavailable.content)) }
{
    if is_head {
        Ok(Vec::new(alloc))
    } else {
        Ok(word_reply(alloc, 503, "unavailable")?.content)
    }
}
