//! The machine: bytes in, events out. A message is as in RFC 9112, with the length of its body in front (section 6.2);
//! 100-continue as in RFC 9110, section 10.1.1.
ghost use Rattle.std.specs.Prelude.{◌≡◌, ◌≤◌, ◌+◌, ◌∷◌, ◌++◌, ◌||◌, [], List, ℕ, length, drop, Some, true, false};
ghost use Rattle.std.specs.Prelude.{IfOk, IsOk, IsSome, OnOk, OnErr, is_some};
ghost use Rattle.std.specs.Option.{ForSome};
ghost use Rattle.http_messages.specs.Block.{from_block, HasNoEndUpTo, IsBlock, HoldsBlock};
ghost use Rattle.http_messages.specs.Message.{Arrival, Read, Refused as RefusedArrival, IsRefused};
ghost use Rattle.http_connection.specs.Buffer.{buffered};
ghost use Rattle.http_messages.specs.declared.refusal.Refusal.{Refusal};
ghost use Rattle.http_connection.specs.Parsed.{IsPlaced};

use crate::buffer::{Buffer, MAX_HELD};
use crate::event::{Event, Request};
use crate::parsed::{Parsed, parse_at};
use http_messages::{Block, Head, HeadFault, HeldSpans, Refusal, find_block_from, searched_len};
use std::alloc::{AllocError, Global};

/// The bytes of a connection that came and belong to no request that was finished, and the head of the first request
/// among them, once it is there. A head is parsed once, and no byte of it searched twice.
#[derive(Drop)]
pub struct Connection {
    held: Buffer,
    /// How many bytes hold no end of a head, whatever follows, a CRLF that is skipped not counted.
    searched: usize,
    /// The head that begins the bytes.
    parsed: Option<Parsed>,
    /// Whether nothing comes any more.
    has_ended: bool,
    /// Whether no request is told any more.
    is_over: bool,
    ghost unended: { (more : List ℕ) → HasNoEndUpTo (from_block (buffered held ++ more)) searched },
    ghost placed: { ForSome parsed (IsPlaced (buffered held)) },
    ghost bounded: { length (buffered held) ≤ 1064962 },
}

impl Connection {
    ghost use Rattle.http_connection.specs.Connection.{held, memory, spare, has_head, has_ended, is_over, lent};
    ghost use Rattle.http_connection.specs.Connection.{lent_awaits, lent_len, lent_closes, IsNew, IsSound, HasFinished};
    ghost use Rattle.http_connection.specs.Connection.{TellsNext, CanWait, KeepsState};

    /// A connection on which nothing came. It takes no memory before something does.
    pub fn new(alloc: Global) -> Connection
        ensures is_new { IsNew result }
        ensures none { HasFinished [] [] result }
    {
        Connection::over(Buffer::new(alloc))
    }

    /// A connection on which nothing came, with memory for so many bytes.
    pub fn with_room(alloc: Global, count: usize) -> Result<Connection, AllocError>
        requires { count ≤ MAX_HELD }
        ensures is_new { IfOk result IsNew }
        ensures memory { IfOk result (λ c. memory c ≡ count) }
    {
        Ok(Connection::over(Buffer::with_room(alloc, count)?))
    }

    /// A connection on which nothing came, over a buffer of nothing.
    fn over(held: Buffer) -> Connection
        requires { buffered held ≡ [] }
        ensures is_new { IsNew result }
        ensures buffer { result.held ≡ held }
    {
        Connection {
            held,
            searched: 0,
            parsed: None,
            has_ended: false,
            is_over: false,
        }
    }

    /// The allocator of what is held.
    pub fn alloc(&self) -> Global {
        self.held.alloc()
    }

    /// How many bytes are held.
    pub fn len(&self) -> usize
        ensures value { result ≡ length (held self.now) }
        ensures bound { result ≤ MAX_HELD }
    {
        self.held.len()
    }

    /// Makes room for so many bytes, if there is memory for it.
    pub fn reserve(&mut self, count: usize) -> Result<(), AllocError>
        requires { length (held self.old) + count ≤ MAX_HELD }
        ensures state { KeepsState self.old self.new }
        ensures sound { IsSound self.old → IsSound self.new }
        ensures more { (came : List ℕ) (arrivals : List Arrival) → HasFinished came arrivals self.old
            → HasFinished came arrivals self.new }
        ensures room { OnOk result (count ≤ spare self.new) }
    {
        self.held.reserve(count)
    }

    /// Takes bytes that came, for which there is room.
    pub fn receive_reserved(&mut self, bytes: &[u8])
        requires { length bytes.now ≤ spare self.old }
        ensures taken { held self.new ≡ held self.old ++ bytes.now }
        ensures more { (came : List ℕ) (arrivals : List Arrival) → HasFinished came arrivals self.old
            → HasFinished (came ++ bytes.now) arrivals self.new }
        ensures sound { IsSound self.old → IsSound self.new }
        ensures parsed { self.new.parsed ≡ self.old.parsed }
        ensures over { is_over self.new ≡ is_over self.old }
        ensures ended { has_ended self.new ≡ has_ended self.old }
    {
        self.held.append(bytes);
    }

    /// Takes bytes that came. Without memory for them none is taken.
    pub fn receive_data(&mut self, bytes: &[u8]) -> Result<(), AllocError>
        requires { length (held self.old) + length bytes.now ≤ MAX_HELD }
        ensures taken { OnOk result (held self.new ≡ held self.old ++ bytes.now) }
        ensures refused { OnErr result (held self.new ≡ held self.old) }
        ensures more { (came : List ℕ) (arrivals : List Arrival) → HasFinished came arrivals self.old
            → OnOk result (HasFinished (came ++ bytes.now) arrivals self.new) }
        ensures sound { IsSound self.old → IsSound self.new }
        ensures parsed { self.new.parsed ≡ self.old.parsed }
        ensures over { is_over self.new ≡ is_over self.old }
        ensures ended { has_ended self.new ≡ has_ended self.old }
    {
        self.reserve(bytes.len())?;
        self.receive_reserved(bytes);
        Ok(())
    }

    /// Lets the memory go that no byte is in, as far as the allocator does.
    pub fn shrink(&mut self)
        ensures state { KeepsState self.old self.new }
        ensures sound { IsSound self.old → IsSound self.new }
        ensures more { (came : List ℕ) (arrivals : List Arrival) → HasFinished came arrivals self.old
            → HasFinished came arrivals self.new }
        ensures memory { memory self.new ≤ memory self.old }
        ensures frees { held self.old ≡ [] → memory self.new ≡ 0 }
    {
        self.held.shrink();
    }

    /// Takes note that nothing comes any more.
    pub fn receive_end(&mut self)
        ensures held { held self.new ≡ held self.old }
        ensures parsed { self.new.parsed ≡ self.old.parsed }
        ensures over { is_over self.new ≡ is_over self.old }
        ensures ended { has_ended self.new ≡ true }
        ensures sound { IsSound self.old → IsSound self.new }
    {
        self.has_ended = true;
    }

    /// What comes next. It stays the same until bytes come or `finish` is called. `Err` is a want of memory for a head
    /// that was not parsed before. Then, and where a head was parsed, nothing is changed.
    pub fn next_event(&mut self) -> Result<Event, AllocError>
        ensures event { IsSound self.old → IfOk result (TellsNext self.new) }
        ensures sound { IsSound self.old → IsSound self.new }
        ensures memory { OnErr result (HoldsBlock (held self.new)) }
        ensures kept { has_head self.old ≡ true → IsOk result × KeepsState self.old self.new }
        ensures refused { OnErr result (KeepsState self.old self.new) }
        ensures held { held self.new ≡ held self.old }
        ensures over { is_over self.new ≡ is_over self.old }
        ensures ended { has_ended self.new ≡ has_ended self.old }
    {
        if self.is_over {
            return Ok(Event::ConnectionClosed);
        }
        if self.parsed.is_none() {
            match find_block_from(self.held.as_slice(), self.searched) {
                Block::End(end) => match parse_at(self.held.alloc(), self.held.as_slice(), end) {
                    Ok(parsed) => self.parsed = Some(parsed),
                    Err(HeadFault::Memory) => return Err(AllocError),
                    Err(fault) => return Ok(Event::Refused(Refusal::Head(fault))),
                },
                Block::TooLong => return Ok(Event::Refused(Refusal::HeadTooLarge)),
                Block::More => {
                    self.searched = searched_len(self.held.as_slice());
                    return Ok(self.wait(false));
                }
            }
        }
        Ok(self.event_of_head())
    }

    /// The event where a head was parsed.
    fn event_of_head(&self) -> Event
        requires open { self.now.is_over ≡ false }
        requires parsed { IsSome self.now.parsed }
        ensures { IsSound self.now → TellsNext self.now result }
    {
        let Some(parsed) = &self.parsed else {
            unreachable!()
        };
        if self.held.as_slice().len() >= parsed.whole_len() {
            return Event::Request;
        }
        self.wait(parsed.awaits())
    }

    /// The event where the bytes are less than a request.
    fn wait(&self, awaits: bool) -> Event
        ensures { CanWait self.now awaits → TellsNext self.now result }
    {
        if self.has_ended {
            Event::ConnectionClosed
        } else {
            Event::NeedData { awaits }
        }
    }

    /// The request that `next_event` told. It is lent where it came, and not copied.
    pub fn request(&self) -> Request<'_>
        requires { IsSome (lent self.now) }
        ensures { lent self.now ≡ Some (record { head = result.head; body = result.body.now }) }
    {
        let Some(parsed) = &self.parsed else {
            unreachable!()
        };
        let bytes = self.held.as_slice();
        Request {
            head: Head::at(
                &bytes[parsed.start..parsed.end],
                HeldSpans::Lent(&parsed.spans),
                parsed.framing,
            ),
            body: &bytes[parsed.end..parsed.whole_len()],
        }
    }

    /// Whether the head of the request that is lent asks for an interim response before the body.
    pub fn awaits(&self) -> bool
        requires { IsSome (lent self.now) }
        ensures { result ≡ lent_awaits self.now }
    {
        let Some(parsed) = &self.parsed else {
            unreachable!()
        };
        parsed.awaits()
    }

    /// Whether a request is lent: `next_event` told one that was not finished.
    pub fn lends(&self) -> bool
        ensures { result ≡ is_some (lent self.now) }
    {
        match &self.parsed {
            Some(parsed) => parsed.whole_len() <= self.held.len(),
            None => false,
        }
    }

    /// Whether nothing is told any more.
    pub fn is_over(&self) -> bool
        ensures { result ≡ is_over self.now }
    {
        self.is_over
    }

    /// Finishes the request that is lent: its reply is decided. The bytes behind it stand first now, and after one that
    /// closes nothing is told any more.
    pub fn finish(&mut self)
        requires { IsSome (lent self.old) }
        ensures finished { (came : List ℕ) (arrivals : List Arrival) → HasFinished came arrivals self.old
            → is_over self.old ≡ false
            → ForSome (lent self.old) (λ request. HasFinished came (arrivals ++ Read request ∷ []) self.new) }
        ensures held { held self.new ≡ drop (lent_len self.old) (held self.old) }
        ensures none { has_head self.new ≡ false }
        ensures over { is_over self.new ≡ (is_over self.old || lent_closes self.old) }
        ensures ended { has_ended self.new ≡ has_ended self.old }
    {
        let Some(parsed) = self.parsed.take() else {
            unreachable!()
        };
        self.held.drop_front(parsed.whole_len());
        self.searched = 0;
        self.is_over |= parsed.framing.closes;
    }

    /// Closes the connection: nothing is told any more, as after what was refused.
    pub fn close(&mut self)
        ensures refused { (came : List ℕ) (arrivals : List Arrival) (refusal : Refusal)
            → HasFinished came arrivals self.old → is_over self.old ≡ false → IsRefused (held self.old) refusal
            → HasFinished came (arrivals ++ RefusedArrival refusal ∷ []) self.new }
        ensures held { held self.new ≡ held self.old }
        ensures parsed { self.new.parsed ≡ self.old.parsed }
        ensures lent { lent self.new ≡ lent self.old }
        ensures length { lent_len self.new ≡ lent_len self.old }
        ensures over { is_over self.new ≡ true }
        ensures ended { has_ended self.new ≡ has_ended self.old }
    {
        self.is_over = true;
    }
}
