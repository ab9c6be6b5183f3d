//! One connection: what came and was not answered yet, and what is owed to it.
ghost use Rattle.std.specs.Prelude.{◌≡◌, ◌⊎◌, ◌≤◌, ◌<◌, ◌+◌, ℕ, true, false, List, [], ◌∷◌, ◌++◌, length, drop};
ghost use Rattle.std.specs.Prelude.{vec_len};
ghost use Rattle.std.specs.Prelude.{Some, None, IsSome, IfSome, IfNone, is_some, OnOk, OnErr, option_map};
ghost use Rattle.std.specs.Prelude.{if◌then◌else◌};
ghost use Rattle.std.specs.Option.{ForSome};
ghost use Rattle.http_messages.specs.Message.{Arrival, Asks, interim};
ghost use Rattle.http_connection.specs.Connection.{has_ended, is_over, memory, HasFinished, IsSound, KeepsState};
ghost use Rattle.http_connection.specs.Connection.{TellsNext};
ghost use Rattle.connection_hall.specs.Answers.{Answer, answer_to, own, interim_of, is_last};
ghost use Rattle.connection_hall.specs.Arriving.{IsFresh, arrival_seen, HasShortBody};
ghost use Rattle.connection_hall.specs.Connections.{held_by, arrival, IsServed, HoldsWithin, HasWritten};
ghost use Rattle.connection_hall.specs.Connections.{Grows, KeepsStanding, MovesOn, NeedsMore, has_passed, most_held};
ghost use Rattle.connection_hall.specs.Ready.{StandsFirst};
ghost use Rattle.connection_hall.specs.TurnsTaken.{IsAfterTurn, IsNotReady};

use crate::loan::Loan;
use crate::ready::{Arrived, Ready};
use crate::stream::{Got, Stream};
use crate::turn::Turn;
use crate::why::Why;
use http_connection::{Connection, Event};
use std::alloc::{AllocError, Global};

/// `100 Continue` and an empty line (RFC 9110, section 15.2.1).
const INTERIM: &[u8] = b"HTTP/1.1 100 Continue\r\n\r\n";

/// The most bytes of a request: a skipped CRLF, 16,384 bytes of a head and 1,048,576 of a body.
pub(crate) const MAX_REQUEST: usize = 1_064_962;

/// How many bytes a connection holds, beside one read, without a loan.
const SMALL: usize = 16_384;

/// How many things a connection does before the others have their turn.
const SHARE: u32 = 16;

/// A connection that is served.
#[derive(Drop)]
pub(crate) struct Served<S> {
    pub(crate) stream: S,
    /// How many connections came before it.
    pub(crate) number: u32,
    /// What came and was not answered yet.
    pub(crate) machine: Connection,
    /// What was not written yet.
    pub(crate) owed: Vec<u8>,
    /// Whether the interim response that the next request asks for went already, or is owed.
    pub(crate) is_early: bool,
    /// What is to be answered before it goes on.
    pub(crate) ready: Option<Ready>,
    /// Whether it is over once nothing is owed.
    pub(crate) is_closing: bool,
    /// The room that is lent to it, so that it may hold a whole request.
    pub(crate) loan: Option<Loan>,
    /// The moment from which its peer is waited for, if it is.
    pub(crate) since: Option<u64>,
}

impl<S: Stream> Served<S> {
    /// A connection on which nothing came and nothing went. It takes no memory before something comes.
    pub(crate) fn new(alloc: Global, stream: S, number: u32) -> Served<S>
        requires { IsFresh S.Stream stream }
        ensures served { (answers : List Answer) → own number answers ≡ [] → IsServed S.Stream answers result }
        ensures stream { result.stream ≡ stream }
        ensures number { result.number ≡ number }
        ensures held { held_by result ≡ [] }
        ensures owed { result.owed.items ≡ [] }
        ensures ready { result.ready ≡ None }
        ensures loan { result.loan ≡ None }
    {
        Served {
            stream,
            number,
            machine: Connection::new(alloc),
            owed: Vec::new(alloc),
            is_early: false,
            ready: None,
            is_closing: false,
            loan: None,
            since: None,
        }
    }

    /// The stream.
    pub(crate) fn into_stream(self) -> S
        ensures { result ≡ self.stream }
    {
        let Served {
            stream,
            number: _,
            machine: _,
            owed: _,
            is_early: _,
            ready: _,
            is_closing: _,
            loan: _,
            since: _,
        } = self;
        stream
    }

    /// Writes what it owes, if it owes something, and else goes on, unless it is only to write. So the others have
    /// their turn between what one wrote and its next request.
    pub(crate) fn take_turn(&mut self, room: &mut [u8], only_writes: bool) -> Turn
        requires { 0 < length room.old }
        ensures served { (answers : List Answer) → IsServed S.Stream answers self.old
            → IsAfterTurn S.Stream answers result self.new }
        ensures writes { only_writes ≡ true → IsNotReady result }
        ensures owes { 0 < vec_len self.old.owed → IsNotReady result × HasWritten S.Stream self.new
            × (result ≡ Turn.Again → vec_len self.new.owed < vec_len self.old.owed) }
        ensures moves { (answers : List Answer) → IsServed S.Stream answers self.old → self.old.owed.items ≡ []
            → only_writes ≡ false → result ≡ Turn.Again → MovesOn self.old self.new }
        ensures grows { Grows self.old self.new }
        ensures same { KeepsStanding S.Stream self.old self.new }
        ensures held { (read : ℕ) → length room.old ≤ read → HoldsWithin read self.old → HoldsWithin read self.new }
        ensures owed { (most : ℕ) → length interim ≤ most → vec_len self.old.owed ≤ most
            → vec_len self.new.owed ≤ most }
    {
        if !self.owed.is_empty() {
            return self.write();
        }
        if only_writes {
            return Turn::Again;
        }
        self.go_on(room)
    }

    /// Goes on until it waits, is ready or over, or has had its share.
    fn go_on(&mut self, room: &mut [u8]) -> Turn
        requires { 0 < length room.old }
        ensures moves { (answers : List Answer) → IsServed S.Stream answers self.old → self.old.owed.items ≡ []
            → result ≡ Turn.Again → MovesOn self.old self.new }
        ensures grows { Grows self.old self.new }
        ensures served { (answers : List Answer) → IsServed S.Stream answers self.old
            → IsAfterTurn S.Stream answers result self.new }
        ensures same { KeepsStanding S.Stream self.old self.new }
        ensures held { (read : ℕ) → length room.old ≤ read → HoldsWithin read self.old → HoldsWithin read self.new }
        ensures owed { (most : ℕ) → length interim ≤ most → vec_len self.old.owed ≤ most
            → vec_len self.new.owed ≤ most }
    {
        for _count in 0..SHARE {
            match self.step(room) {
                Turn::Again => {}
                turn => return turn,
            }
        }
        Turn::Again
    }

    /// Does one thing: writes what is owed, or else becomes ready, or owes the interim response, or reads.
    fn step(&mut self, room: &mut [u8]) -> Turn
        requires { 0 < length room.old }
        ensures moves { (answers : List Answer) → IsServed S.Stream answers self.old → self.old.owed.items ≡ []
            → result ≡ Turn.Again → MovesOn self.old self.new }
        ensures grows { Grows self.old self.new }
        ensures served { (answers : List Answer) → IsServed S.Stream answers self.old
            → IsAfterTurn S.Stream answers result self.new }
        ensures same { KeepsStanding S.Stream self.old self.new }
        ensures held { (read : ℕ) → length room.old ≤ read → HoldsWithin read self.old → HoldsWithin read self.new }
        ensures owed { (most : ℕ) → length interim ≤ most → vec_len self.old.owed ≤ most
            → vec_len self.new.owed ≤ most }
    {
        if !self.owed.is_empty() {
            return self.write();
        }
        if self.ready.is_some() {
            return Turn::Ready;
        }
        if self.is_closing {
            return Turn::Over(Why::Done);
        }
        match self.machine.next_event() {
            Ok(Event::Request) => self.be_ready(Ready::Request),
            Ok(Event::Refused(refusal)) => self.be_ready(Ready::Refused(refusal)),
            Ok(Event::NeedData { awaits }) => self.need_data(room, awaits),
            Ok(Event::ConnectionClosed) => Turn::Over(Why::Done),
            Err(_) => Turn::Over(Why::NoMemory),
        }
    }

    /// Owes the interim response, if what is held asks for it and it is not early; or else reads.
    fn need_data(&mut self, room: &mut [u8], awaits: bool) -> Turn
        requires room { 0 < length room.old }
        requires none_owed { self.old.owed.items ≡ [] }
        requires none_ready { self.old.ready ≡ None }
        requires open { self.old.is_closing ≡ false }
        ensures served { (answers : List Answer) → IsServed S.Stream answers self.old
            → TellsNext self.old.machine (Event.NeedData awaits) → IsAfterTurn S.Stream answers result self.new }
        ensures moves { TellsNext self.old.machine (Event.NeedData awaits) → result ≡ Turn.Again
            → MovesOn self.old self.new }
        ensures grows { Grows self.old self.new }
        ensures same { KeepsStanding S.Stream self.old self.new }
        ensures held { (read : ℕ) → length room.old ≤ read → HoldsWithin read self.old → HoldsWithin read self.new }
        ensures owed { (most : ℕ) → length interim ≤ most → vec_len self.old.owed ≤ most
            → vec_len self.new.owed ≤ most }
    {
        if awaits && !self.is_early {
            return self.owe_interim();
        }
        self.read(room)
    }

    /// Writes what goes of what is owed. A connection that is closing is over once all of it went.
    fn write(&mut self) -> Turn
        requires { 0 < vec_len self.old.owed }
        ensures served { (answers : List Answer) → IsServed S.Stream answers self.old
            → IsAfterTurn S.Stream answers result self.new }
        ensures writes { IsNotReady result }
        ensures written { HasWritten S.Stream self.new }
        ensures same { KeepsStanding S.Stream self.old self.new }
        ensures rest { self.new ≡ record self.old { stream = self.new.stream; owed = self.new.owed } }
        ensures owed { vec_len self.new.owed ≤ vec_len self.old.owed }
        ensures moves { result ≡ Turn.Again → vec_len self.new.owed < vec_len self.old.owed }
    {
        match self.stream.write(self.owed.as_slice()) {
            Ok(0) => Turn::Waits,
            Ok(count) => {
                drop_front(&mut self.owed, count);
                if self.is_closing && self.owed.is_empty() {
                    return Turn::Over(Why::Done);
                }
                Turn::Again
            }
            Err(_) => Turn::Over(Why::Broken),
        }
    }

    /// Waits until what stands first is answered.
    fn be_ready(&mut self, ready: Ready) -> Turn
        requires none_owed { self.old.owed.items ≡ [] }
        requires open { self.old.is_closing ≡ false }
        ensures served { (answers : List Answer) → IsServed S.Stream answers self.old
            → StandsFirst self.old.machine ready → IsAfterTurn S.Stream answers result self.new }
        ensures turn { result ≡ Turn.Ready }
        ensures rest { self.new ≡ record self.old { ready = Some ready } }
    {
        self.ready = Some(ready);
        Turn::Ready
    }

    /// Owes the interim response that what is held asks for.
    fn owe_interim(&mut self) -> Turn
        requires none_owed { self.old.owed.items ≡ [] }
        requires none_ready { self.old.ready ≡ None }
        requires once { self.old.is_early ≡ false }
        requires open { self.old.is_closing ≡ false }
        ensures served { (answers : List Answer) → IsServed S.Stream answers self.old
            → Asks (held_by self.old) true → IsAfterTurn S.Stream answers result self.new }
        ensures same { KeepsStanding S.Stream self.old self.new }
        ensures rest { self.new ≡ record self.old { owed = self.new.owed; is_early = self.new.is_early } }
        ensures early { result ≡ Turn.Again → self.new.is_early ≡ true }
        ensures owed { vec_len self.new.owed ≤ length interim }
    {
        if self.owed.extend_from_slice(INTERIM).is_err() {
            return Turn::Over(Why::NoMemory);
        }
        self.is_early = true;
        Turn::Again
    }

    /// Reads what is there, if it may hold more. From the first byte of a request on its peer is waited for anew.
    fn read(&mut self, room: &mut [u8]) -> Turn
        requires { 0 < length room.old }
        ensures moves { NeedsMore self.old → result ≡ Turn.Again → MovesOn self.old self.new }
        ensures grows { Grows self.old self.new }
        ensures served { (answers : List Answer) → IsServed S.Stream answers self.old → NeedsMore self.old
            → IsAfterTurn S.Stream answers result self.new }
        ensures same { KeepsStanding S.Stream self.old self.new }
        ensures held { (read : ℕ) → length room.old ≤ read → HoldsWithin read self.old → HoldsWithin read self.new }
        ensures owed { self.new.owed ≡ self.old.owed }
    {
        let held = self.machine.len();
        if held >= self.most_held() {
            return Turn::Short;
        }
        let most = room.len().min(MAX_REQUEST - held);
        let room = &mut room[..most];
        match self.stream.read(room) {
            Got::Bytes(count) => {
                let since = self.since_more();
                match self.machine.receive_data(&room[..count]) {
                    Ok(()) => {
                        self.since = since;
                        Turn::Again
                    }
                    Err(_) => Turn::Over(Why::NoMemory),
                }
            }
            Got::Nothing => Turn::Waits,
            Got::End => {
                self.machine.receive_end();
                Turn::Again
            }
        }
    }

    /// How many bytes it may hold before it reads once more.
    fn most_held(&self) -> usize
        ensures { result ≡ most_held self.now.loan 0 }
    {
        if self.loan.is_some() {
            MAX_REQUEST
        } else {
            SMALL
        }
    }

    /// From when on its peer is waited for once more bytes come: anew, if they are the first ones of a request.
    fn since_more(&self) -> Option<u64>
        ensures anew { held_by self.now ≡ [] → result ≡ None }
        ensures kept { 0 < length (held_by self.now) → result ≡ self.now.since }
    {
        if self.machine.len() == 0 {
            None
        } else {
            self.since
        }
    }

    /// Whether something is to be answered before it goes on.
    pub(crate) fn is_ready(&self) -> bool
        ensures { result ≡ is_some (arrival self.now) }
    {
        match self.ready {
            Some(Ready::Request) => self.machine.lends(),
            Some(Ready::Refused(_)) => true,
            None => false,
        }
    }

    /// What is to be answered, lent where it came.
    pub(crate) fn arrived(&self) -> Option<Arrived<'_>>
        ensures seen { arrival self.now ≡ option_map arrival_seen result }
        ensures bound { IfSome result HasShortBody }
    {
        match self.ready? {
            Ready::Request if self.machine.lends() => {
                Some(Arrived::Request(self.machine.request()))
            }
            Ready::Request => None,
            Ready::Refused(refusal) => Some(Arrived::Refused(refusal)),
        }
    }

    /// Owes the reply to what is to be answered: the interim response that it asks for, unless that went before, and
    /// then this text. The connection goes on with what stands behind it, unless nothing can follow, or it is to close.
    /// From then on its peer is waited for anew. A loan that what is left does not need is given back, and its
    /// memory. Without memory
    /// nothing changes.
    pub(crate) fn answer(&mut self, text: &[u8], closes: bool) -> Result<(), AllocError>
        requires { IsSome (arrival self.old) }
        ensures answered { (answers : List Answer) → IsServed S.Stream answers self.old
            → OnOk result (ForSome (arrival self.old) (λ arrival. IsServed S.Stream
            (answers ++ answer_to self.old.number arrival text.now closes ∷ []) self.new)) }
        ensures refused { OnErr result (self.new ≡ record self.old { owed = self.new.owed }) }
        ensures refused_owed { OnErr result (self.new.owed.items ≡ self.old.owed.items) }
        ensures stream { self.new.stream ≡ self.old.stream }
        ensures number { self.new.number ≡ self.old.number }
        ensures none_ready { OnOk result (self.new.ready ≡ None) }
        ensures since { OnOk result (self.new.since ≡ None) }
        ensures held { (read : ℕ) → HoldsWithin read self.old → HoldsWithin read self.new }
        ensures loan { self.new.loan ≡ None ⊎ (self.new.loan ≡ self.old.loan) }
        ensures gives_back { OnOk result (length (held_by self.new) ≤ 16384 → self.new.loan ≡ None) }
        ensures frees { IsSome self.old.loan → OnOk result (held_by self.new ≡ [] → memory self.new.machine ≡ 0) }
        ensures owed { vec_len self.new.owed ≤ vec_len self.old.owed + length interim + length text.now }
    {
        let interim = self.interim_left();
        append_both(&mut self.owed, interim, text)?;
        self.finish();
        self.is_closing = closes || self.machine.is_over();
        self.ready = None;
        self.is_early = false;
        self.since = None;
        self.give_loan_back();
        Ok(())
    }

    /// Finishes what is to be answered: the bytes behind it stand first now, and after what nothing can follow
    /// nothing is
    /// told any more.
    fn finish(&mut self)
        requires { IsSome (arrival self.old) }
        ensures finished { (bytes : List ℕ) (arrivals : List Arrival) → HasFinished bytes arrivals self.old.machine
            → IfSome self.old.ready (StandsFirst self.old.machine) → ForSome (arrival self.old) (λ arrival.
            HasFinished bytes (arrivals ++ arrival ∷ []) self.new.machine
            × (is_over self.new.machine ≡ is_last arrival)) }
        ensures ended { has_ended self.new.machine ≡ has_ended self.old.machine }
        ensures held { length (held_by self.new) ≤ length (held_by self.old) }
        ensures rest { self.new ≡ record self.old { machine = self.new.machine } }
    {
        match self.ready {
            Some(Ready::Request) => self.machine.finish(),
            Some(Ready::Refused(_)) => self.machine.close(),
            None => {}
        }
    }

    /// What is left to be written of the interim response that what is to be answered asks for.
    fn interim_left(&self) -> &'static [u8]
        requires { IsSome (arrival self.now) }
        ensures text { ForSome (arrival self.now) (λ arrival.
            result.now ≡ (if self.now.is_early then [] else interim_of arrival)) }
        ensures short { length result.now ≤ length interim }
    {
        match self.ready {
            Some(Ready::Request) if !self.is_early && self.machine.awaits() => INTERIM,
            _ => &[],
        }
    }

    /// Gives its loan back, if it has one and holds no more than it may without. The memory goes with it.
    fn give_loan_back(&mut self)
        ensures rest { self.new ≡ record self.old { machine = self.new.machine; loan = self.new.loan } }
        ensures machine { KeepsState self.old.machine self.new.machine }
        ensures sound { IsSound self.old.machine → IsSound self.new.machine }
        ensures loan { self.new.loan ≡ None ⊎ (self.new.loan ≡ self.old.loan) }
        ensures held { (read : ℕ) → HoldsWithin read self.old → HoldsWithin read self.new }
        ensures gives_back { length (held_by self.new) ≤ 16384 → self.new.loan ≡ None }
        ensures frees { IsSome self.old.loan → held_by self.new ≡ [] → memory self.new.machine ≡ 0 }
    {
        if self.loan.is_some() && self.machine.len() <= SMALL {
            self.machine.shrink();
            self.loan = None;
        }
    }

    /// Lends it room, from now on. Its peer is waited for anew.
    pub(crate) fn lend(&mut self, now: u64)
        ensures lent { self.new ≡ record self.old {
          loan = Some (record { since = now; held = length (held_by self.old) });
          since = None;
        } }
        ensures held { (read : ℕ) → read ≤ 1048576 → HoldsWithin read self.old → HoldsWithin read self.new }
    {
        self.loan = Some(Loan {
            since: now,
            held: self.machine.len(),
        });
        self.since = None;
    }

    /// Up to which moment it has its loan while others are short of one, if it has one and nothing on it is to be
    /// answered.
    pub(crate) fn term(&self) -> Option<u64>
        ensures some { IfSome result (λ term. (late : ℕ) → has_passed self.now late ≡ true → term ≤ late) }
        ensures none { IfNone result ((late : ℕ) → has_passed self.now late ≡ false) }
    {
        match self.loan {
            Some(loan) if self.ready.is_none() => Some(loan.term(self.machine.len())),
            _ => None,
        }
    }

    /// Whether it has a loan whose term has passed, and nothing on it is to be answered.
    pub(crate) fn has_passed(&self, now: u64) -> bool
        ensures { result ≡ has_passed self.now now }
    {
        match self.loan {
            Some(loan) if self.ready.is_none() => loan.has_passed(self.machine.len(), now),
            _ => false,
        }
    }
}

/// Appends both, if there is memory for it.
fn append_both(bytes: &mut Vec<u8>, first: &[u8], second: &[u8]) -> Result<(), AllocError>
    requires { length first.now ≤ 25 }
    ensures ok { OnOk result (bytes.new.items ≡ bytes.old.items ++ first.now ++ second.now) }
    ensures err { OnErr result (bytes.new.items ≡ bytes.old.items) }
{
    bytes.reserve(first.len() + second.len())?;
    if bytes.extend_from_slice(first).is_err() {
        unreachable!()
    }
    if bytes.extend_from_slice(second).is_err() {
        unreachable!()
    }
    Ok(())
}

/// Drops the first bytes. If none is left, their memory is let go.
fn drop_front(bytes: &mut Vec<u8>, count: usize)
    requires { count ≤ vec_len bytes.old }
    ensures items { bytes.new.items ≡ drop count bytes.old.items }
    ensures len { vec_len bytes.new + count ≡ vec_len bytes.old }
{
    let left = bytes.len() - count;
    if left == 0 {
        bytes.clear();
        bytes.shrink_to_fit();
        return;
    }
    bytes.rotate_left(count);
    bytes.truncate(left);
}
