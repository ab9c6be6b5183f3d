//! A round: what waits is answered.

ghost use Rattle.gateway_rounds.specs.Ports.{port as view_port};
ghost use Rattle.gateway_rounds.specs.Rounds.{AnswersRound};

use crate::at_once::answer_at_once;
use crate::group::file_group;
use crate::note::Note;
use crate::port::Port;
use connection_hall::{Sockets, Stream};
use intake_core::{Intake, Moment};
use sqlite::Alter;

/// Answers what waits, all of which came by this moment. What needs no commit is answered first, so that it is on its
/// way before a commit begins. Then what is to be kept is kept with one commit, up to 64 requests and 4 MiB of bodies.
/// Both are answered in the order of the places, from one on and round. What is left waits for the next round, which
/// begins at the first place that was left, so that each has its turn. If there is no memory to decide what waits, or
/// for its reply, its connection is over.
pub fn answer_ready<T: Stream<Note = Note> + Drop, K: Sockets<Stream = T> + Drop, S: Alter>(
    port: &mut Port<T, K>,
    intake: &mut Intake<S>,
    moment: Moment,
)
    ensures { AnswersRound T.Stream S.Store (view_port K.traffic port.old) (view_port K.traffic port.new) intake.old
        intake.new }
{
    intake.date(moment);
    port.group.clear();
    let left = answer_at_once(port, intake);
    file_group(port, intake, moment);
    port.group.clear();
    port.next = left.unwrap_or(0);
}
