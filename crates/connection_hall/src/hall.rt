//! All connections that are served at once, each in its place.
ghost use Rattle.std.specs.Prelude.{◌≡◌, ◌≢◌, ◌⊎◌, ◌<◌, ◌≤◌, ◌+◌, ◌-◌, ◌*◌, ◌/◌, ◌∷◌, ◌++◌, [], ℕ, Bool, List, Option};
ghost use Rattle.std.specs.Prelude.{Some};
ghost use Rattle.std.specs.Prelude.{None};
ghost use Rattle.std.specs.Prelude.{IsSome, IfSome, IfNone, IfOk, OnOk, OnErr, IsTrue, option_map, min, length, true};
ghost use Rattle.std.specs.Prelude.{false};
ghost use Rattle.std.specs.Prelude.{nat_eq, is_some, slice_index, slice_index_or, vec_len, vec_capacity};
ghost use Rattle.std.specs.Duration.{as_nanos};
ghost use Rattle.std.specs.Option.{ForSome, unwrap_or};
ghost use Rattle.connection_hall.specs.Answers.{Answer, answer_to};
ghost use Rattle.connection_hall.specs.Arriving.{arrival_seen, HasShortBody};
ghost use Rattle.connection_hall.specs.Comings.{Traffic};
ghost use Rattle.connection_hall.specs.Connections.{IsServed, IsWaiting, IsShortOfLoan, HasWritten};
ghost use Rattle.connection_hall.specs.Deadlines.{patience, has_passed, Awaits};
ghost use Rattle.connection_hall.specs.Rounds.{count, most, left, called, KeepsTurns};
ghost use Rattle.connection_hall.specs.Places.{taken_places, owed, owed_places, arrival_in, since_of, has_passed_in};

use crate::bounds::Bounds;
use crate::deadlines::Deadlines;
use crate::loans::Loans;
use crate::ready::Arrived;
use crate::room::Room;
use crate::round::Round;
use crate::served::Served;
use crate::sockets::Sockets;
use crate::stream::Stream;
use crate::turn::Turn;
use crate::why::Why;
use std::alloc::{AllocError, Global};
use std::io;
use std::time::Duration;

/// For how many milliseconds the system is asked at most while connections wait until less is owed.
const PAUSE: u64 = 10;

/// The length of an interim response: `HTTP/1.1 100 Continue` and an empty line (RFC 9110, section 15.2.1).
const INTERIM_LEN: usize = 25;

/// The connections that are served, each in its place.
#[derive(Drop)]
pub struct Hall<S> {
    alloc: Global,
    bounds: Bounds,
    /// How many connections are still to come.
    left: u32,
    /// The places up to the last one that was taken when the system was asked, or is taken since. Those behind it are
    /// free, and cost nothing.
    places: Vec<Option<Served<S>>>,
    round: Round,
    loans: Loans,
    deadlines: Deadlines,
    /// How many bytes all connections owe, or more.
    owed: usize,
    /// What a read is made into.
    room: Room,
    ghost turns: { count round ≡ length places.items },
    ghost within: { most round ≡ bounds.places },
    ghost reserved: { bounds.places ≤ vec_capacity places },
    ghost to_come: { left ≤ bounds.connections },
}

impl<S: Stream + Drop> Hall<S> {
    ghost use Rattle.connection_hall.specs.Running.{IsRunning, IsEmpty, is_shut, turns, arrival_at, number_at};
    ghost use Rattle.connection_hall.specs.Running.{AreRunning, IsInHand, KeepsOthers, KeepsOtherPlaces, KeepsAll};
    ghost use Rattle.connection_hall.specs.Running.{GoesOn, IsShort};
    ghost use Rattle.connection_hall.specs.Running.{GivesOne, AreCalled, DelaysNone, MayEnd, IsOver, IsResting};
    ghost use Rattle.connection_hall.specs.Running.{is_late, is_late_at, AreLateCalled, IsInTime, EndsInTime};

    /// A hall in which no connection came yet, and all places are free.
    pub fn new(alloc: Global, bounds: Bounds) -> Result<Hall<S>, AllocError>
        ensures running { IfOk result (λ hall. (traffic : Option (Traffic S)) → IsEmpty traffic
            → IsRunning S.Stream [] hall traffic) }
        ensures bounds { IfOk result (λ hall. hall.bounds ≡ bounds) }
        ensures shut { IfOk result (λ hall. is_shut hall ≡ nat_eq bounds.connections 0) }
    {
        Ok(Hall {
            alloc,
            bounds,
            left: bounds.connections,
            places: Vec::with_capacity(alloc, bounds.places)?,
            round: Round::new(alloc, bounds.places)?,
            loans: Loans::new(bounds.most_lent()),
            deadlines: Deadlines::new(bounds.patience),
            owed: 0,
            room: Room::new(alloc)?,
        })
    }

    /// Whether all connections came that were to come, and all are over.
    pub fn is_shut(&self) -> bool
        ensures { result ≡ is_shut self.now }
    {
        self.left == 0 && are_free(&self.places)
    }

    /// The first place from this one on whose connection waits for an answer.
    pub fn ready(&self, from: usize) -> Option<usize>
        ensures found { IfSome result (λ place. (from ≤ place) × IsSome (arrival_at self.now place)) }
        ensures first { IfSome result (λ place. (i : ℕ) → from ≤ i → i < place → arrival_at self.now i ≡ None) }
        ensures none { IfNone result ((i : ℕ) → from ≤ i → arrival_at self.now i ≡ None) }
        ensures bound { IfSome result (λ place. place < 18446744073709551615) }
    {
        for place in from..self.places.len() {
            if is_ready(&self.places[place]) {
                return Some(place);
            }
        }
        None
    }

    /// What is to be answered in a place, lent where it came.
    pub fn request(&self, place: usize) -> Option<Arrived<'_>>
        ensures seen { arrival_at self.now place ≡ option_map arrival_seen result }
        ensures bound { IfSome result HasShortBody }
    {
        self.places.get(place)?.as_ref()?.arrived()
    }

    /// Gives one place its turn, and says which: the first that has it, from the one behind the last that was given on.
    /// Each other place that has its turn keeps it, and waits for fewer gives than before. What it owes is written, as
    /// far as it goes; if it owes nothing, and all together do not owe too much, it goes on. `None`, and nothing is
    /// done,
    /// if the round is over, or no place has its turn.
    pub fn go_on<P: Sockets<Stream = S>>(&mut self, sockets: &mut P) -> Option<usize>
        ensures running { (answers : List Answer) → IsRunning S.Stream answers self.old (P.traffic sockets.old)
            → IsRunning S.Stream answers self.new (P.traffic sockets.new) }
        ensures given { IfSome result (GivesOne self.old self.new) }
        ensures writes { IfSome result (λ place. 0 < owed (slice_index_or self.old.places.items place None)
            → IfSome (slice_index_or self.new.places.items place None) (HasWritten S.Stream)) }
        ensures goes_on { (answers : List Answer) → IsRunning S.Stream answers self.old (P.traffic sockets.old)
            → owed_places self.old.places.items ≤ self.old.bounds.memory / 2
            → IfSome result (λ place. GoesOn S.Stream self.new (slice_index_or self.old.places.items place None)
            (slice_index_or self.new.places.items place None)) }
        ensures in_time { (answers : List Answer) → IsRunning S.Stream answers self.old (P.traffic sockets.old)
            → IfSome result (λ place. IsInTime self.new place (P.clock sockets.new)) }
        ensures over { IfNone result (IsOver self.old × (self.new ≡ self.old)) }
        ensures bounds { self.new.bounds ≡ self.old.bounds }
    {
        let place = self.round.give()?;
        if self.must_wait(place) {
            self.round.call(place);
            return Some(place);
        }
        if let Some(served) = self.leave(place) {
            self.turn(place, served, sockets);
        }
        Some(place)
    }

    /// Whether the connection in a place waits with its turn, since it owes nothing, and all together owe too much. The
    /// places are counted only if as much may be owed.
    fn must_wait(&mut self, place: usize) -> bool
        requires { place < vec_len self.old.places }
        ensures kept { self.new ≡ record self.old { owed = self.new.owed } }
        ensures counted { min (owed_places self.old.places.items) 18446744073709551615 ≤ self.old.owed
            → min (owed_places self.old.places.items) 18446744073709551615 ≤ self.new.owed }
        ensures laden { IsTrue result → self.old.bounds.memory / 2 < owed_places self.old.places.items }
        ensures owes_nothing { IsTrue result → owed (slice_index_or self.old.places.items place None) ≡ 0 }
        ensures light { owed_places self.old.places.items ≤ self.old.bounds.memory / 2
            → self.new.owed ≤ self.old.bounds.memory / 2 }
    {
        let most = self.bounds.memory / 2;
        if self.owed <= most {
            return false;
        }
        self.owed = count_owed(&self.places);
        self.owed > most && owed_in(&self.places[place]) == 0
    }

    /// Takes the connection out of a place, if there is one.
    fn leave(&mut self, place: usize) -> Option<Served<S>>
        requires { place < vec_len self.old.places }
        ensures running { (answers : List Answer) (traffic : Option (Traffic S)) (called : ℕ → Bool)
            → KeepsOthers place called (turns self.old) → AreRunning S.Stream answers None called self.old traffic
            → AreRunning S.Stream answers result (turns self.new) self.new traffic }
        ensures hand { (answers : List Answer) (traffic : Option (Traffic S)) (called : ℕ → Bool)
            → AreRunning S.Stream answers None called self.old traffic
            → IfSome result (IsInHand S.Stream answers self.new place) }
        ensures was { result ≡ slice_index_or self.old.places.items place None }
        ensures free { slice_index_or self.new.places.items place None ≡ None }
        ensures others { KeepsOtherPlaces place self.old self.new }
        ensures round { self.new.round ≡ self.old.round }
        ensures kept { KeepsAll self.old self.new }
    {
        self.places[place].take()
    }

    /// Puts a connection into a place that is free. It goes on at once, or rests.
    fn enter(&mut self, place: usize, served: Served<S>, goes_on: bool)
        requires place { place < vec_len self.old.places }
        requires free { slice_index_or self.old.places.items place None ≡ None }
        ensures running { (answers : List Answer) (traffic : Option (Traffic S))
            → IsInHand S.Stream answers self.old place served
            → (goes_on ≡ true) ⊎ IsResting S.Stream self.old served
            → AreRunning S.Stream answers (Some served) (turns self.old) self.old traffic
            → IsRunning S.Stream answers self.new traffic }
        ensures here { slice_index_or self.new.places.items place None ≡ Some served }
        ensures others { KeepsOtherPlaces place self.old self.new }
        ensures turn { goes_on ≡ true → turns self.new place ≡ true }
        ensures len { vec_len self.new.places ≡ vec_len self.old.places }
        ensures left { self.new.left ≡ self.old.left }
        ensures round { KeepsTurns self.old.round self.new.round }
        ensures loans { self.new.loans ≡ self.old.loans }
        ensures patience { patience self.new.deadlines ≡ patience self.old.deadlines }
        ensures bounds { self.new.bounds ≡ self.old.bounds }
    {
        self.deadlines.note(served.since);
        self.places[place] = Some(served);
        if goes_on {
            self.round.call(place);
        }
    }

    /// Takes leave of a connection that is over. A loan that it has comes back.
    fn end<P: Sockets<Stream = S>>(&mut self, served: Served<S>, why: Why, sockets: &mut P)
        ensures running { (answers : List Answer) → MayEnd S.Stream answers self.old why served
            → AreRunning S.Stream answers (Some served) (turns self.old) self.old (P.traffic sockets.old)
            → IsRunning S.Stream answers self.new (P.traffic sockets.new) }
        ensures places { self.new.places ≡ self.old.places }
        ensures clock { P.clock sockets.new ≡ P.clock sockets.old }
        ensures round { KeepsTurns self.old.round self.new.round }
        ensures bounds { self.new.bounds ≡ self.old.bounds }
    {
        let number = served.number;
        let had_loan = served.loan.is_some();
        sockets.end(served.into_stream(), number, why);
        if had_loan {
            self.loans.give_back(&mut self.round);
        }
    }

    /// Lets a connection go on that was taken out of its place. While too much is owed it only writes.
    fn turn<P: Sockets<Stream = S>>(&mut self, place: usize, served: Served<S>, sockets: &mut P)
        requires place { place < vec_len self.old.places }
        requires free { slice_index_or self.old.places.items place None ≡ None }
        ensures running { (answers : List Answer) → IsInHand S.Stream answers self.old place served
            → AreRunning S.Stream answers (Some served) (turns self.old) self.old (P.traffic sockets.old)
            → IsRunning S.Stream answers self.new (P.traffic sockets.new) }
        ensures owes { 0 < vec_len served.owed
            → IfSome (slice_index_or self.new.places.items place None) (HasWritten S.Stream) }
        ensures goes_on { (answers : List Answer) → IsServed S.Stream answers served
            → self.old.owed ≤ self.old.bounds.memory / 2
            → GoesOn S.Stream self.new (Some served) (slice_index_or self.new.places.items place None) }
        ensures in_time { (answers : List Answer) → IsServed S.Stream answers served
            → IsInTime self.new place (P.clock sockets.new) }
        ensures others { KeepsOtherPlaces place self.old self.new }
        ensures round { KeepsTurns self.old.round self.new.round }
        ensures bounds { self.new.bounds ≡ self.old.bounds }
    {
        let mut served = served;
        let is_laden = self.owed > self.bounds.memory / 2;
        // It may owe an interim response after its turn.
        self.owed = self.owed.saturating_add(INTERIM_LEN);
        match served.take_turn(&mut self.room.bytes, is_laden) {
            Turn::Again => self.enter(place, served, true),
            Turn::Ready => self.enter(place, served, false),
            Turn::Waits => self.rest(place, served, sockets),
            Turn::Short => self.lend(place, served, sockets.now()),
            Turn::Over(why) => self.end(served, why, sockets),
        }
    }

    /// Lets a connection rest until the system says that it may go on. It is over if its peer was waited for long
    /// enough. Its peer is waited for from now on, if it was not before.
    fn rest<P: Sockets<Stream = S>>(&mut self, place: usize, served: Served<S>, sockets: &mut P)
        requires place { place < vec_len self.old.places }
        requires free { slice_index_or self.old.places.items place None ≡ None }
        ensures running { (answers : List Answer) → IsInHand S.Stream answers self.old place served
            → IsWaiting S.Stream served
            → AreRunning S.Stream answers (Some served) (turns self.old) self.old (P.traffic sockets.old)
            → IsRunning S.Stream answers self.new (P.traffic sockets.new) }
        ensures here { IfSome (slice_index_or self.new.places.items place None)
            (λ c. c ≡ record served { since = Some (unwrap_or served.since (P.clock sockets.old)) }) }
        ensures in_time { IsInTime self.new place (P.clock sockets.new) }
        ensures others { KeepsOtherPlaces place self.old self.new }
        ensures round { KeepsTurns self.old.round self.new.round }
        ensures bounds { self.new.bounds ≡ self.old.bounds }
    {
        let mut served = served;
        let now = sockets.now();
        served.since = Some(served.since.unwrap_or(now));
        if self.is_late(&served, now) {
            self.end(served, Why::Late, sockets);
        } else {
            self.enter(place, served, false);
        }
    }

    /// Whether the peer of a connection was waited for as long as the patience is, or as its loan is given while others
    /// are short of one.
    fn is_late(&self, served: &Served<S>, now: u64) -> bool
        ensures { result ≡ is_late self.now served.now now }
    {
        self.deadlines.has_passed(served.since, now)
            || self.loans.is_short() && served.has_passed(now)
    }

    /// Lends room to a connection that is short of it, if a loan is left. Otherwise it rests until one comes back, and
    /// its peer is not waited for meanwhile.
    fn lend(&mut self, place: usize, served: Served<S>, now: u64)
        requires place { place < vec_len self.old.places }
        requires free { slice_index_or self.old.places.items place None ≡ None }
        ensures running { (answers : List Answer) (traffic : Option (Traffic S))
            → IsInHand S.Stream answers self.old place served → IsShortOfLoan served
            → AreRunning S.Stream answers (Some served) (turns self.old) self.old traffic
            → IsRunning S.Stream answers self.new traffic }
        ensures here { IfSome (slice_index_or self.new.places.items place None)
            (λ c. c ≡ record served { loan = c.loan; since = c.since }) }
        ensures lent { IsShortOfLoan served → IfSome (slice_index_or self.new.places.items place None)
            (λ c. IsSome c.loan ⊎ IsShort self.new c) }
        ensures in_time { IsShortOfLoan served → IsInTime self.new place now }
        ensures others { KeepsOtherPlaces place self.old self.new }
        ensures round { KeepsTurns self.old.round self.new.round }
        ensures bounds { self.new.bounds ≡ self.old.bounds }
    {
        let mut served = served;
        if self.loans.lend() {
            served.lend(now);
            self.enter(place, served, true);
        } else {
            served.since = None;
            self.enter(place, served, false);
        }
    }

    /// Answers what is to be answered in a place, notes what it was answered with, and writes what goes of it at once.
    /// If there is no memory for the text, the connection is over, and is not answered.
    pub fn answer<P: Sockets<Stream = S>>(
        &mut self,
        sockets: &mut P,
        place: usize,
        text: &[u8],
        closes: bool,
        note: &S::Note,
    ) -> Result<(), AllocError>
        requires { IsSome (arrival_at self.old place) }
        ensures answered { (answers : List Answer) → IsRunning S.Stream answers self.old (P.traffic sockets.old)
            → OnOk result (ForSome (arrival_at self.old place) (λ arrival. IsRunning S.Stream
            (answers ++ answer_to (number_at self.old place) arrival text.now closes ∷ []) self.new
            (P.traffic sockets.new))) }
        ensures lost { (answers : List Answer) → IsRunning S.Stream answers self.old (P.traffic sockets.old)
            → OnErr result (IsRunning S.Stream answers self.new (P.traffic sockets.new)) }
        ensures written { OnOk result (IfSome (slice_index_or self.new.places.items place None)
            (HasWritten S.Stream)) }
        ensures over { OnErr result (slice_index_or self.new.places.items place None ≡ None) }
        ensures in_time { (answers : List Answer) → IsRunning S.Stream answers self.old (P.traffic sockets.old)
            → IsInTime self.new place (P.clock sockets.new) }
        ensures others { KeepsOtherPlaces place self.old self.new }
        ensures round { KeepsTurns self.old.round self.new.round }
        ensures bounds { self.new.bounds ≡ self.old.bounds }
    {
        let Some(mut served) = self.leave(place) else {
            return Ok(());
        };
        let had_loan = served.loan.is_some();
        let Ok(()) = served.answer(text, closes) else {
            self.end(served, Why::NoMemory, sockets);
            return Err(AllocError);
        };
        served.stream.note(note);
        self.settle(&served, had_loan, text.len());
        self.resume(place, served, sockets);
        Ok(())
    }

    /// Lets a connection go on that was answered: by a turn if it owes something, and else with the others.
    fn resume<P: Sockets<Stream = S>>(&mut self, place: usize, served: Served<S>, sockets: &mut P)
        requires place { place < vec_len self.old.places }
        requires free { slice_index_or self.old.places.items place None ≡ None }
        ensures running { (answers : List Answer) → IsInHand S.Stream answers self.old place served
            → AreRunning S.Stream answers (Some served) (turns self.old) self.old (P.traffic sockets.old)
            → IsRunning S.Stream answers self.new (P.traffic sockets.new) }
        ensures written { IfSome (slice_index_or self.new.places.items place None) (HasWritten S.Stream) }
        ensures in_time { (answers : List Answer) → IsServed S.Stream answers served
            → IsInTime self.new place (P.clock sockets.new) }
        ensures others { KeepsOtherPlaces place self.old self.new }
        ensures round { KeepsTurns self.old.round self.new.round }
        ensures bounds { self.new.bounds ≡ self.old.bounds }
    {
        if served.owed.is_empty() {
            self.enter(place, served, true);
        } else {
            self.turn(place, served, sockets);
        }
    }

    /// Takes leave of the connection in a place, since there is no memory for a reply to what is to be answered.
    pub fn give_up<P: Sockets<Stream = S>>(&mut self, sockets: &mut P, place: usize)
        requires { IsSome (arrival_at self.old place) }
        ensures running { (answers : List Answer) → IsRunning S.Stream answers self.old (P.traffic sockets.old)
            → IsRunning S.Stream answers self.new (P.traffic sockets.new) }
        ensures over { slice_index_or self.new.places.items place None ≡ None }
        ensures others { KeepsOtherPlaces place self.old self.new }
        ensures round { KeepsTurns self.old.round self.new.round }
        ensures bounds { self.new.bounds ≡ self.old.bounds }
    {
        let Some(served) = self.leave(place) else {
            return;
        };
        self.end(served, Why::NoMemory, sockets);
    }

    /// Counts what a connection owes more since it was answered, and takes its loan back if it has none any more.
    fn settle(&mut self, served: &Served<S>, had_loan: bool, len: usize)
        ensures running { (answers : List Answer) (traffic : Option (Traffic S)) (c : Served S)
            → served.now.number ≡ c.number → is_some c.loan ≡ had_loan
            → (served.now.loan ≡ None) ⊎ (served.now.loan ≡ c.loan)
            → vec_len served.now.owed ≤ vec_len c.owed + INTERIM_LEN + len
            → AreRunning S.Stream answers (Some c) (turns self.old) self.old traffic
            → AreRunning S.Stream answers (Some served.now) (turns self.new) self.new traffic }
        ensures places { self.new.places ≡ self.old.places }
        ensures left { self.new.left ≡ self.old.left }
        ensures round { KeepsTurns self.old.round self.new.round }
        ensures bounds { self.new.bounds ≡ self.old.bounds }
    {
        self.owed = self.owed.saturating_add(len).saturating_add(INTERIM_LEN);
        if had_loan && served.loan.is_none() {
            self.loans.give_back(&mut self.round);
        }
    }

    /// Asks the system which connections may go on, waits for one if no place has its turn, and gives connections that
    /// came their places. Each place that the system named has its turn then, and a round of turns begins: one for each
    /// place that has its turn.
    pub fn ask<P: Sockets<Stream = S>>(&mut self, sockets: &mut P, wait: Duration) -> io::Result<()>
        ensures running { (answers : List Answer) → IsRunning S.Stream answers self.old (P.traffic sockets.old)
            → IsRunning S.Stream answers self.new (P.traffic sockets.new) }
        ensures named { IfOk result (λ _. AreCalled (P.named sockets.new) self.new) }
        ensures delays { IfOk result (λ _. DelaysNone self.old self.new) }
        ensures late { (answers : List Answer) → IsRunning S.Stream answers self.old (P.traffic sockets.old)
            → IfOk result (λ _. AreLateCalled self.new (P.clock sockets.new)) }
        ensures begun { IfOk result (λ _. left self.new.round ≡ called self.new.round) }
        ensures bounds { self.new.bounds ≡ self.old.bounds }
    {
        self.trim();
        let wait = self.wait_at_most(sockets.now(), wait);
        sockets.ask(wait)?;
        self.call_named(sockets.named());
        self.call_late(sockets.now());
        self.admit(sockets)?;
        self.round.begin();
        Ok(())
    }

    /// Leaves the last places out, as far as they are free.
    fn trim(&mut self)
        ensures running { (answers : List Answer) (traffic : Option (Traffic S))
            → IsRunning S.Stream answers self.old traffic → IsRunning S.Stream answers self.new traffic }
        ensures delays { DelaysNone self.old self.new }
        ensures bounds { self.new.bounds ≡ self.old.bounds }
    {
        let used = count_used(&self.places);
        self.places.truncate(used);
        self.round.shrink(used);
    }

    /// How long to wait at most: not at all if a connection has its turn, and a little if those that have it wait until
    /// less is owed; and never past a moment at which a peer was waited for too long.
    fn wait_at_most(&self, now: u64, wait: Duration) -> Duration
        ensures turn { (i : ℕ) → turns self.now i ≡ true → self.now.owed ≤ self.now.bounds.memory / 2
            → as_nanos result ≡ 0 }
        ensures late { (answers : List Answer) (traffic : Option (Traffic S))
            → IsRunning S.Stream answers self.now traffic → EndsInTime self.now now (as_nanos result) }
        ensures within { as_nanos result ≤ as_nanos wait }
    {
        if !self.round.any() {
            return self.until_late(now, wait);
        }
        if self.owed <= self.bounds.memory / 2 {
            return Duration::ZERO;
        }
        self.until_late(now, at_most(wait, PAUSE))
    }

    /// How long to wait at most, so that no deadline passes, and no term of a loan of which others are short.
    fn until_late(&self, now: u64, wait: Duration) -> Duration
        ensures late { (answers : List Answer) (traffic : Option (Traffic S))
            → IsRunning S.Stream answers self.now traffic → EndsInTime self.now now (as_nanos result) }
        ensures within { as_nanos result ≤ as_nanos wait }
    {
        let wait = self.until_deadline(now, wait);
        if !self.loans.is_short() {
            return wait;
        }
        self.until_term(now, wait)
    }

    /// How long to wait at most, so that no deadline passes.
    fn until_deadline(&self, now: u64, wait: Duration) -> Duration
        ensures deadlines { (since : Option ℕ) (late : ℕ) → Awaits self.now.deadlines since
            → has_passed (patience self.now.deadlines) since late ≡ true
            → as_nanos result ≤ (late - now) * 1000000 }
        ensures within { as_nanos result ≤ as_nanos wait }
    {
        match self.deadlines.soonest() {
            Some(soonest) => at_most(wait, soonest.saturating_sub(now)),
            None => wait,
        }
    }

    /// How long to wait at most, so that no term of a loan passes.
    fn until_term(&self, now: u64, wait: Duration) -> Duration
        ensures terms { (i late : ℕ) → has_passed_in (slice_index_or self.now.places.items i None) late ≡ true
            → as_nanos result ≤ (late - now) * 1000000 }
        ensures within { as_nanos result ≤ as_nanos wait }
    {
        let mut wait = wait;
        for place in 0..self.places.len() {
            if let Some(term) = term_in(&self.places[place]) {
                wait = at_most(wait, term.saturating_sub(now));
            }
        }
        wait
    }

    /// Gives each place its turn that the system named.
    fn call_named(&mut self, named: &[usize])
        ensures running { (answers : List Answer) (traffic : Option (Traffic S))
            → IsRunning S.Stream answers self.old traffic → IsRunning S.Stream answers self.new traffic }
        ensures named { AreCalled named.now self.new }
        ensures places { self.new.places ≡ self.old.places }
        ensures round { KeepsTurns self.old.round self.new.round }
        ensures rest { KeepsAll self.old self.new }
    {
        for place in named {
            if *place < self.places.len() {
                self.round.call(*place);
            }
        }
    }

    /// Gives each place its turn whose peer was waited for long enough. The places are looked through only if that may
    /// be.
    fn call_late(&mut self, now: u64)
        ensures running { (answers : List Answer) (traffic : Option (Traffic S))
            → IsRunning S.Stream answers self.old traffic → IsRunning S.Stream answers self.new traffic }
        ensures late { (answers : List Answer) (traffic : Option (Traffic S))
            → IsRunning S.Stream answers self.old traffic → AreLateCalled self.new now }
        ensures places { self.new.places ≡ self.old.places }
        ensures round { KeepsTurns self.old.round self.new.round }
        ensures rest { KeepsAll self.old self.new }
    {
        if !self.deadlines.begin_anew(now) && !self.loans.is_short() {
            return;
        }
        for place in 0..self.places.len() {
            if self.is_late_in(place, now) {
                self.round.call(place);
            }
            self.deadlines.note(since_in(&self.places[place]));
        }
    }

    /// Whether the connection in a place was waited for too long.
    fn is_late_in(&self, place: usize, now: u64) -> bool
        requires { place < vec_len self.now.places }
        ensures { result ≡ is_late_at self.now (slice_index_or self.now.places.items place None) now }
    {
        match &self.places[place] {
            Some(served) => self.is_late(served, now),
            None => false,
        }
    }

    /// Gives connections that came the places that are free, as long as some are to come.
    fn admit<P: Sockets<Stream = S>>(&mut self, sockets: &mut P) -> io::Result<()>
        ensures running { (answers : List Answer) → IsRunning S.Stream answers self.old (P.traffic sockets.old)
            → IsRunning S.Stream answers self.new (P.traffic sockets.new) }
        ensures named { P.named sockets.new ≡ P.named sockets.old }
        ensures clock { P.clock sockets.new ≡ P.clock sockets.old }
        ensures called { (named : List ℕ) → AreCalled named self.old → AreCalled named self.new }
        ensures late { (now : ℕ) → AreLateCalled self.old now → AreLateCalled self.new now }
        ensures delays { DelaysNone self.old self.new }
        ensures bounds { self.new.bounds ≡ self.old.bounds }
    {
        for place in 0..self.bounds.places {
            if self.left == 0 {
                return Ok(());
            }
            self.grow(place);
            if self.places[place].is_none() {
                let Some(stream) = sockets.accept(place)? else {
                    return Ok(());
                };
                let number = self.bounds.connections - self.left;
                self.left -= 1;
                self.enter(place, Served::new(self.alloc, stream, number), true);
            }
        }
        Ok(())
    }

    /// Adds this place, if it is the one behind the last.
    fn grow(&mut self, place: usize)
        requires within { place < self.old.bounds.places }
        requires next { place ≤ vec_len self.old.places }
        ensures there { place < vec_len self.new.places }
        ensures running { (answers : List Answer) (traffic : Option (Traffic S))
            → IsRunning S.Stream answers self.old traffic → IsRunning S.Stream answers self.new traffic }
        ensures called { (named : List ℕ) → AreCalled named self.old → AreCalled named self.new }
        ensures late { (now : ℕ) → AreLateCalled self.old now → AreLateCalled self.new now }
        ensures delays { DelaysNone self.old self.new }
        ensures left { self.new.left ≡ self.old.left }
        ensures bounds { self.new.bounds ≡ self.old.bounds }
    {
        if place == self.places.len() {
            self.places.push_reserved(None);
            self.round.grow();
        }
    }
}

/// Whether the connection in a place waits for an answer.
fn is_ready<S: Stream>(place: &Option<Served<S>>) -> bool
    ensures { result ≡ is_some (arrival_in place.now) }
{
    match place {
        Some(served) => served.is_ready(),
        None => false,
    }
}

/// How many bytes are owed to connections in places, as far as that can be counted.
fn count_owed<S>(places: &[Option<Served<S>>]) -> usize
    ensures { result ≡ min (owed_places places.now) 18446744073709551615 }
{
    let mut count: usize = 0;
    for place in 0..places.len() {
        count = count.saturating_add(owed_in(&places[place]));
    }
    count
}

/// How many bytes are owed to the connection in a place.
fn owed_in<S>(place: &Option<Served<S>>) -> usize
    ensures { result ≡ owed place.now }
{
    match place {
        Some(served) => served.owed.len(),
        None => 0,
    }
}

/// From when on the peer of the connection in a place is waited for.
fn since_in<S>(place: &Option<Served<S>>) -> Option<u64>
    ensures { result ≡ since_of place.now }
{
    match place {
        Some(served) => served.since,
        None => None,
    }
}

/// Up to which moment the connection in a place has its loan while others are short of one, if it has one and nothing
/// on it is to be answered.
fn term_in<S: Stream>(place: &Option<Served<S>>) -> Option<u64>
    ensures some { IfSome result (λ term. (late : ℕ) → has_passed_in place.now late ≡ true → term ≤ late) }
    ensures none { IfNone result ((late : ℕ) → has_passed_in place.now late ≡ false) }
{
    match place {
        Some(served) => served.term(),
        None => None,
    }
}

/// This long, and at most so many milliseconds.
fn at_most(wait: Duration, millis: u64) -> Duration
    ensures { as_nanos result ≡ min (as_nanos wait) (millis * 1_000_000) }
{
    let other = Duration::from_millis(millis);
    if wait.as_nanos() <= other.as_nanos() {
        wait
    } else {
        other
    }
}

/// How many places there are up to the last one that has a connection.
fn count_used<S>(places: &[Option<Served<S>>]) -> usize
    ensures within { result ≤ length places.now }
    ensures free { (place : ℕ) → result ≤ place → slice_index_or places.now place None ≡ None }
{
    let mut used = places.len();
    while used > 0 && places[used - 1].is_none() {
        used -= 1;
    }
    used
}

/// Whether no place has a connection.
fn are_free<S>(places: &[Option<Served<S>>]) -> bool
    ensures { result ≡ nat_eq (taken_places places.now) 0 }
{
    for place in 0..places.len() {
        if places[place].is_some() {
            return false;
        }
    }
    true
}
