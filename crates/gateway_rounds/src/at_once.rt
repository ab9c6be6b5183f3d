//! The first part of a round: what needs no commit.

ghost use Rattle.std.specs.Prelude.{◌≡◌, ◌≤◌, ◌++◌, ◌∷◌, [], true, false, IsSome, vec_capacity};
ghost use Rattle.connection_hall.specs.Running.{arrival_at};
ghost use Rattle.gateway_rounds.specs.Groups.{left_after, HasRoom, IsFull, SortsAll, SortsPlace};
ghost use Rattle.gateway_rounds.specs.Ports.{port as view_port};

use crate::new::{New, is_full};
use crate::note::Note;
use crate::one::tell_verdict;
use crate::port::Port;
use crate::sort::{Sorted, sort};
use connection_hall::{Sockets, Stream};
use intake_core::Intake;
use sqlite::Alter;

/// Answers whatever waits and needs no commit, in the order of the places, from that on which is next, and round. What
/// is to be kept joins the group, as far as there is room. The result is the first place for which there was none.
pub(crate) fn answer_at_once<
    T: Stream<Note = Note> + Drop,
    K: Sockets<Stream = T> + Drop,
    S: Alter,
>(port: &mut Port<T, K>, intake: &mut Intake<S>) -> Option<usize>
    requires { port.old.group.items ≡ [] }
    ensures { SortsAll T.Stream S.Store port.old.next (view_port K.traffic port.old) (view_port K.traffic port.new)
        port.new.group.items result intake.old intake.new }
{
    let start = port.next;
    let mut left = None;
    let mut from = start;
    'on: loop {
        let Some(place) = port.hall.ready(from) else {
            break;
        };
        let has_room = sort_place(port, intake, place);
        left = left_after(left, place, has_room);
        from = place + 1;
    }
    let mut upto = 0;
    'round: loop {
        let Some(place) = port.hall.ready(upto) else {
            return left;
        };
        if place >= start {
            return left;
        }
        let has_room = sort_place(port, intake, place);
        left = left_after(left, place, has_room);
        upto = place + 1;
    }
}

/// The first place for which there was no room, after this one was looked at.
fn left_after(left: Option<usize>, place: usize, has_room: bool) -> Option<usize>
    ensures { result ≡ left_after left place has_room }
{
    match left {
        Some(place) => Some(place),
        None if has_room => None,
        None => Some(place),
    }
}

/// Answers what waits in a place, if it needs no commit. If it is to be kept it joins the group. The result is whether
/// there was room for it.
fn sort_place<T: Stream<Note = Note> + Drop, K: Sockets<Stream = T> + Drop, S: Alter>(
    port: &mut Port<T, K>,
    intake: &mut Intake<S>,
    place: usize,
) -> bool
    requires { IsSome (arrival_at port.old.hall place) }
    ensures { SortsPlace T.Stream S.Store place (view_port K.traffic port.old) (view_port K.traffic port.new)
        port.old.group.items port.new.group.items intake.old intake.new result }
{
    match sort(port.alloc, &port.hall, place, intake) {
        Ok(Sorted::AtOnce(verdict)) => {
            tell_verdict(port, place, verdict);
            true
        }
        Ok(Sorted::Filing(new)) => join(&mut port.group, new),
        Err(_) => {
            port.hall.give_up(&mut port.sockets, place);
            true
        }
    }
}

/// Adds what is new to a group, if there is room, and says whether there was.
fn join(group: &mut Vec<New>, new: New) -> bool
    requires { 64 ≤ vec_capacity group.old }
    ensures joined { result ≡ true → (group.new.items ≡ group.old.items ++ new ∷ [])
        × HasRoom group.old.items new.len }
    ensures left { result ≡ false → (group.new.items ≡ group.old.items) × IsFull group.old.items new.len }
    ensures capacity { vec_capacity group.new ≡ vec_capacity group.old }
{
    if is_full(group.as_slice(), new.len) {
        return false;
    }
    group.push_reserved(new);
    true
}
