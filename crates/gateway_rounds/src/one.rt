//! What waits in one place answered.

ghost use Rattle.std.specs.Prelude.{◌≡◌, IsSome, Bool};
ghost use Rattle.connection_hall.specs.Running.{arrival_at};
ghost use Rattle.gateway_server.specs.Decided.{IsPhrased};
ghost use Rattle.gateway_rounds.specs.Places.{IsTextOf, TakesPlace, TellsPlace};
ghost use Rattle.gateway_rounds.specs.Ports.{port as view_port};

use crate::note::Note;
use crate::port::Port;
use crate::verdict::{Verdict, decide_at};
use connection_hall::{Sockets, Stream};
use gateway_server::{Decided, Mark};
use http_messages::reply_text;
use intake_core::Intake;
use sqlite::Alter;
use std::alloc::{AllocError, Global};

/// Decides what waits in a place, and answers it. If there is no memory to decide it, or for its reply, its connection
/// is over.
pub(crate) fn answer_one<T: Stream<Note = Note> + Drop, K: Sockets<Stream = T> + Drop, S: Alter>(
    port: &mut Port<T, K>,
    intake: &mut Intake<S>,
    place: usize,
)
    requires { IsSome (arrival_at port.old.hall place) }
    ensures takes { TakesPlace T.Stream S.Store place (view_port K.traffic port.old) (view_port K.traffic port.new)
        intake.old intake.new }
    ensures group { port.new.group ≡ port.old.group }
{
    match decide_at(port.alloc, &port.hall, place, intake) {
        Ok(verdict) => tell_verdict(port, place, verdict),
        Err(_) => port.hall.give_up(&mut port.sockets, place),
    }
}

/// Answers what waits in a place with its verdict.
pub(crate) fn tell_verdict<T: Stream<Note = Note> + Drop, K: Sockets<Stream = T> + Drop>(
    port: &mut Port<T, K>,
    place: usize,
    verdict: Verdict,
)
    requires waits { IsSome (arrival_at port.old.hall place) }
    requires phrase { IsPhrased verdict.decided }
    ensures tells { TellsPlace T.Stream place (view_port K.traffic port.old) (view_port K.traffic port.new)
        (IsTextOf verdict.decided verdict.closes) Bool.false }
    ensures group { port.new.group ≡ port.old.group }
{
    let Verdict {
        decided,
        closes,
        filer,
    } = verdict;
    tell(port, place, &decided, closes, filer);
}

/// Answers what waits in a place with what was decided of it. If there is no memory for the reply, its connection is
/// over.
pub(crate) fn tell<T: Stream<Note = Note> + Drop, K: Sockets<Stream = T> + Drop>(
    port: &mut Port<T, K>,
    place: usize,
    decided: &Decided,
    closes: bool,
    filer: Option<String>,
)
    requires waits { IsSome (arrival_at port.old.hall place) }
    requires phrase { IsPhrased decided.now }
    ensures tells { TellsPlace T.Stream place (view_port K.traffic port.old) (view_port K.traffic port.new)
        (IsTextOf decided.now closes) Bool.false }
    ensures group { port.new.group ≡ port.old.group }
{
    let Ok(reply) = &decided.reply else {
        port.hall.give_up(&mut port.sockets, place);
        return;
    };
    let note = note_of(decided.mark, reply.status, closes, filer);
    let Ok(text) = reply_text(port.alloc, reply, closes) else {
        port.hall.give_up(&mut port.sockets, place);
        return;
    };
    tell_text(port, place, text.as_slice(), false, &note);
}

/// What is noted of an answer.
fn note_of(mark: Mark, status: u16, closes: bool, filer: Option<String>) -> Note {
    Note {
        mark,
        status,
        closes,
        filer: match mark {
            Mark::Done => filer,
            Mark::Unavailable | Mark::NotFiled => None,
        },
    }
}

/// Answers what waits in a place with a text. If there is no memory for that, its connection is over.
pub(crate) fn tell_text<T: Stream<Note = Note> + Drop, K: Sockets<Stream = T> + Drop>(
    port: &mut Port<T, K>,
    place: usize,
    text: &[u8],
    closes: bool,
    note: &Note,
)
    requires { IsSome (arrival_at port.old.hall place) }
    ensures tells { TellsPlace T.Stream place (view_port K.traffic port.old) (view_port K.traffic port.new)
        (λ told. told ≡ text.now) closes }
    ensures group { port.new.group ≡ port.old.group }
{
    // After an error the connection is over.
    let _ = port
        .hall
        .answer(&mut port.sockets, place, text, closes, note);
}
