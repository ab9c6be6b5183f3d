//! The sockets of this machine, found ready by the system.

ghost use Rattle.std.specs.Prelude.{◌≡◌, ◌≤◌, ◌++◌, [], IfOk, IfSome, Some, None, false, length, vec_capacity};
ghost use Rattle.std.specs.Option.{option_map_or};
ghost use Rattle.mio.specs.Events.{items, capacity as events_capacity};
ghost use Rattle.connection_hall.specs.Arriving.{IsFresh};
ghost use Rattle.system_sockets.specs.Seen.{bytes_in, tokens_in};

use crate::address::Address;
use crate::listener::Listener;
use crate::socket::{Socket, is_not_now};
use connection_hall::{Broken, Got, Sockets, Stream, Why};
use http_server::Log;
use mio::event::Event;
use mio::{Events, Poll, Token};
use std::io::{self, ErrorKind};
use std::time::{Duration, Instant, SystemTime};

/// The token of the listener; those of connections are their places.
const LISTENER: Token = Token(usize::MAX);

/// A connection of this machine.
#[derive(Drop)]
pub struct SystemLine {
    socket: Socket,
    place: usize,
    /// What came and what went, which only clauses read: no memory holds it.
    came: Log<u8, bool>,
    went: Log<u8, bool>,
    is_idle: bool,
    is_ended: bool,
    is_stuck: bool,
    is_broken: bool,
}

impl SystemLine {
    /// A connection in this place, of which nothing was read and on which nothing was written.
    fn new(socket: Socket, place: usize) -> SystemLine
        ensures place { result.place ≡ place }
        ensures came { result.came.items ≡ [] }
        ensures went { result.went.items ≡ [] }
        ensures ended { result.is_ended ≡ false }
    {
        SystemLine {
            socket,
            place,
            came: Log::new(),
            went: Log::new(),
            is_idle: false,
            is_ended: false,
            is_stuck: false,
            is_broken: false,
        }
    }
}

/// Notes bytes for clauses. Nothing is done when this runs.
fn note(log: &mut Log<u8, bool>, bytes: &[u8])
    ensures { bytes_in log.new.items ≡ bytes_in log.old.items ++ bytes.now }
{
    for byte in bytes {
        *log = log.and(byte, &true);
    }
}

impl Stream for SystemLine {
    type Note = ();

    ghost place = { λ line. line.place };

    ghost came = { λ line. Some (bytes_in line.came.items) };

    ghost went = { λ line. Some (bytes_in line.went.items) };

    ghost is_idle = { λ line. line.is_idle };

    ghost is_ended = { λ line. line.is_ended };

    ghost is_stuck = { λ line. line.is_stuck };

    ghost is_broken = { λ line. line.is_broken };

    fn read(&mut self, room: &mut [u8]) -> Got {
        let got = self.socket.read(room);
        if let Got::Bytes(count) = got {
            note(&mut self.came, &room[..count]);
        }
        self.is_idle = got == Got::Nothing;
        self.is_ended = got == Got::End;
        got
    }

    fn write(&mut self, text: &[u8]) -> Result<usize, Broken> {
        let taken = self.socket.write(text);
        if let Ok(count) = taken {
            note(&mut self.went, &text[..count]);
        }
        self.is_stuck = match taken {
            Ok(count) => count < text.len(),
            Err(Broken) => !text.is_empty(),
        };
        self.is_broken = taken.is_err();
        taken
    }

    fn note(&mut self, _note: &()) {}
}

/// How many milliseconds passed since 1970-01-01T00:00:00Z by the clock of the system; 0 if it fails, or is set to an
/// earlier time.
pub fn moment_now(rt: &HostRuntime) -> u64 {
    let Ok(now) = SystemTime::now(rt) else {
        return 0;
    };
    match now.duration_since(SystemTime::UNIX_EPOCH) {
        Ok(passed) => u64::try_from(passed.as_millis()).unwrap_or(u64::MAX),
        Err(_) => 0,
    }
}

/// What the system is asked by.
#[derive(Drop)]
struct Listening<'r> {
    poll: Poll,
    events: Events,
    /// The tokens of what may go on, as the system said when it was asked last.
    named: Vec<usize>,
    listener: Listener<'r>,
    /// Whether a connection may wait to be accepted.
    is_coming: bool,
    ghost room: { events_capacity events ≤ vec_capacity named },
}

/// The connections that come in at an address.
#[derive(Drop)]
pub struct SystemSockets<'r> {
    rt: &'r HostRuntime,
    address: Address<'r>,
    /// How many connections the system reports at once at most.
    most: usize,
    /// `None` until it listens.
    listening: Option<Listening<'r>>,
    /// The moment from which on time is counted; `None` if the system has no clock.
    start: Option<Instant>,
    /// How many milliseconds had passed when the system was asked last.
    now: u64,
}

impl<'r> SystemSockets<'r> {
    /// The connections of this address, at which nothing listens yet.
    pub fn new(rt: &'r HostRuntime, address: Address<'r>, most: usize) -> SystemSockets<'r> {
        SystemSockets {
            rt,
            address,
            most,
            listening: None,
            start: Instant::now(rt).ok(),
            now: 0,
        }
    }

    /// Listens at the address.
    fn bind(&self) -> io::Result<Listening<'r>> {
        let mut listener = Listener::bind(self.rt, self.address)?;
        let poll = Poll::new(self.rt)?;
        listener.watch(poll.registry(), LISTENER)?;
        Ok(Listening {
            poll,
            events: Events::with_capacity(self.rt.alloc(), self.most)?,
            named: Vec::with_capacity(self.rt.alloc(), self.most)?,
            listener,
            is_coming: false,
        })
    }

    /// How many milliseconds passed. Without a clock no time passes.
    fn passed(&self) -> u64 {
        let Some(start) = self.start else {
            return 0;
        };
        match start.elapsed(self.rt) {
            Ok(time) => u64::try_from(time.as_millis()).unwrap_or(u64::MAX),
            Err(_) => 0,
        }
    }
}

impl Listening<'_> {
    /// A connection that waits, if one does. It is watched under the number of the place. If the system has no room for
    /// one more, it goes on waiting.
    fn accept(&mut self, place: usize) -> io::Result<Option<SystemLine>>
        ensures fresh { IfOk result (λ line. IfSome line (IsFresh ⟦<SystemLine as Stream>⟧)) }
        ensures place { IfOk result (λ line. IfSome line (λ came. came.place ≡ place)) }
        ensures named { self.new.named ≡ self.old.named }
    {
        match self.listener.accept() {
            Ok(mut socket) => match socket.watch(self.poll.registry(), Token(place)) {
                Ok(()) => Ok(Some(SystemLine::new(socket, place))),
                // It is turned away, and the others go on.
                Err(_) => Ok(None),
            },
            Err(error) if is_not_now(&error) => {
                self.is_coming = false;
                Ok(None)
            }
            Err(error) if is_of_one(&error) || is_for_now(&error) => Ok(None),
            Err(error) => Err(error),
        }
    }

    /// Asks the system which connections may go on, and waits up to so long for one.
    fn ask(&mut self, wait: Duration) -> io::Result<()>
        ensures { IfOk result (λ _. self.new.named.items ≡ tokens_in (items self.new.events)) }
    {
        match self.poll.poll(&mut self.events, Some(wait)) {
            Ok(()) => {}
            // Then it named nothing.
            Err(error) if error.kind() == ErrorKind::Interrupted => {}
            Err(error) => return Err(error),
        }
        put_tokens(&mut self.named, self.events.iter().as_slice());
        self.is_coming = self.is_coming || self.named.contains(&LISTENER.0);
        Ok(())
    }
}

/// Puts the tokens of these events in place of others.
fn put_tokens(named: &mut Vec<usize>, events: &[Event])
    requires { length events.now ≤ vec_capacity named.old }
    ensures put { named.new.items ≡ tokens_in events.now }
    ensures room { vec_capacity named.new ≡ vec_capacity named.old }
{
    named.clear();
    for event in events {
        named.push_reserved(event.token().0);
    }
}

/// Whether an accept failed because of the connection that waited: the errors that accept(2) names as those of a new
/// socket, on which one tries again (EPERM, ENONET, EPROTO, ENOPROTOOPT, EOPNOTSUPP, ENETDOWN, ENETUNREACH, EHOSTDOWN,
/// EHOSTUNREACH), and ECONNABORTED.
fn is_of_one(error: &io::Error) -> bool {
    let number = error.raw_os_error();
    error.kind() == ErrorKind::ConnectionAborted
        || matches!(number, Some(1 | 64 | 71 | 92 | 95 | 100 | 101 | 112 | 113))
}

/// Whether an accept was interrupted, or the system gives no more open files or memory just now (EMFILE, ENFILE,
/// ENOBUFS, ENOMEM): then the port is well, and others go on.
fn is_for_now(error: &io::Error) -> bool {
    match error.kind() {
        ErrorKind::Interrupted | ErrorKind::OutOfMemory => true,
        _ => matches!(error.raw_os_error(), Some(12 | 23 | 24 | 105)),
    }
}

impl Sockets for SystemSockets<'_> {
    type Stream = SystemLine;

    ghost traffic = { λ _. None };

    ghost named = { λ sockets. option_map_or (λ listening. listening.named.items) sockets.listening [] };

    ghost clock = { λ sockets. sockets.now };

    fn listen(&mut self) -> io::Result<()> {
        // A caller may take the port before it can serve, and ask again then.
        if self.listening.is_none() {
            self.listening = Some(self.bind()?);
        }
        Ok(())
    }

    fn accept(&mut self, place: usize) -> io::Result<Option<SystemLine>> {
        match &mut self.listening {
            Some(listening) if listening.is_coming => listening.accept(place),
            Some(_) => Ok(None),
            None => Err(ErrorKind::NotConnected.into()),
        }
    }

    fn ask(&mut self, wait: Duration) -> io::Result<()> {
        let asked = match &mut self.listening {
            Some(listening) => listening.ask(wait),
            None => Err(ErrorKind::NotConnected.into()),
        };
        self.now = self.passed();
        asked
    }

    fn named(&self) -> &[usize] {
        match &self.listening {
            Some(listening) => listening.named.as_slice(),
            None => &[],
        }
    }

    fn now(&self) -> u64 {
        self.now
    }

    fn moment(&self) -> u64 {
        moment_now(self.rt)
    }

    // A stream that is let go is closed, and the system watches it no more.
    fn end(&mut self, stream: SystemLine, _number: u32, _why: Why) {
        drop(stream);
    }
}
