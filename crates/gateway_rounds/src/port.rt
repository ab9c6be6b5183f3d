//! A port: connections, and the sockets on which they come.

ghost use Rattle.std.specs.Prelude.{◌≡◌, ◌+◌, ◌≤◌, ℕ, List, [], None, true, false, IfOk, IsTrue, nat_eq};
ghost use Rattle.std.specs.Prelude.{vec_capacity, IsSome};

use crate::new::{MOST_FILED, New};
use crate::note::Note;
use connection_hall::{Bounds, Hall, Sockets, Stream};
use http_server::Log;
use std::alloc::{AllocError, Global};
use std::io;
use std::time::Duration;

/// For how many milliseconds the system is asked for connections that may go on, if none may.
const WAIT: u64 = 100;

/// The connections of some sockets, which are served in rounds.
#[derive(Drop)]
pub struct Port<T, K> {
    pub(crate) alloc: Global,
    pub(crate) hall: Hall<T>,
    pub(crate) sockets: K,
    /// What waits to be kept with one commit. There is room for as much as may be.
    pub(crate) group: Vec<New>,
    /// The place at which the next round begins: one in which something waits for which there was no room, if there is.
    pub(crate) next: usize,
    /// One for each time that the sockets were asked, which only clauses read.
    asked: Log<bool, bool>,
    ghost room: { 64 ≤ vec_capacity group },
}

impl<T: Stream<Note = Note> + Drop, K: Sockets<Stream = T> + Drop> Port<T, K> {
    ghost use Rattle.connection_hall.specs.Answers.{Answer};
    ghost use Rattle.connection_hall.specs.Running.{IsEmpty, IsOver, arrival_at};
    ghost use Rattle.gateway_rounds.specs.Ports.{port, is_shut, Runs};

    /// The port of these sockets, on which no connection came yet.
    pub fn new(alloc: Global, sockets: K, bounds: Bounds) -> Result<Port<T, K>, AllocError>
        ensures running { IsEmpty (K.traffic sockets) → IfOk result (λ new. Runs T.Stream [] (port K.traffic new)) }
        ensures asked { IfOk result (λ new. (port K.traffic new).asked ≡ 0) }
        ensures shut { IfOk result (λ new. is_shut (port K.traffic new) ≡ nat_eq bounds.connections 0) }
        ensures bounds { IfOk result (λ new. new.hall.bounds ≡ bounds) }
    {
        Ok(Port {
            alloc,
            hall: Hall::new(alloc, bounds)?,
            sockets,
            group: Vec::with_capacity(alloc, MOST_FILED)?,
            next: 0,
            asked: Log::new(),
        })
    }

    /// Begins to listen. No connection comes before that.
    pub fn listen(&mut self) -> io::Result<()>
        ensures { port K.traffic self.new ≡ port K.traffic self.old }
    {
        self.sockets.listen()
    }

    /// Whether all connections came that were to come, and all are over.
    pub fn is_shut(&self) -> bool
        ensures { result ≡ is_shut (port K.traffic self.now) }
    {
        self.hall.is_shut()
    }

    /// Whether something waits for an answer.
    pub fn waits(&self) -> bool
        ensures some { IsTrue result → (place : ℕ) × IsSome (arrival_at self.now.hall place) }
        ensures none { result ≡ false → (place : ℕ) → arrival_at self.now.hall place ≡ None }
    {
        self.hall.ready(0).is_some()
    }

    /// How many milliseconds passed since 1970-01-01T00:00:00Z by the clock of the sockets; 0 if they have none.
    pub fn moment(&self) -> u64 {
        self.sockets.moment()
    }

    /// Asks the sockets once which connections may go on, and gives each place that has its turn one. It waits for a
    /// connection that may go on, up to 100 ms, unless something waits for an answer.
    pub fn go_on(&mut self) -> io::Result<()>
        ensures running { (answers : List Answer) → Runs T.Stream answers (port K.traffic self.old)
            → Runs T.Stream answers (port K.traffic self.new) }
        ensures over { IfOk result (λ _. IsOver self.new.hall) }
        ensures asked { (port K.traffic self.new).asked ≡ (port K.traffic self.old).asked + 1 }
        ensures next { (port K.traffic self.new).next ≡ (port K.traffic self.old).next }
        ensures bounds { self.new.hall.bounds ≡ self.old.hall.bounds }
    {
        let asked = self.asked.and(&true, &true);
        self.asked = asked;
        let wait = if self.waits() { 0 } else { WAIT };
        self.hall
            .ask(&mut self.sockets, Duration::from_millis(wait))?;
        self.take_turns();
        Ok(())
    }

    /// Gives each place that has its turn one, until the round is over.
    fn take_turns(&mut self)
        ensures running { (answers : List Answer) → Runs T.Stream answers (port K.traffic self.old)
            → Runs T.Stream answers (port K.traffic self.new) }
        ensures over { IsOver self.new.hall }
        ensures asked { (port K.traffic self.new).asked ≡ (port K.traffic self.old).asked }
        ensures next { (port K.traffic self.new).next ≡ (port K.traffic self.old).next }
        ensures bounds { self.new.hall.bounds ≡ self.old.hall.bounds }
    {
        'turns: loop {
            if self.hall.go_on(&mut self.sockets).is_none() {
                return;
            }
        }
    }
}
