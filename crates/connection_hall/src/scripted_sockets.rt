//! Sockets in memory that do what a script says.
ghost use Rattle.std.specs.Prelude.{None};

use crate::script::{Reads, ScriptedStream, Writes};
use crate::sockets::Sockets;
use crate::why::Why;
use std::alloc::Global;
use std::io;
use std::time::Duration;

/// What an answer of the system says.
#[derive(Clone, Copy, Debug)]
pub enum Event<'a> {
    /// A connection comes.
    Comes(&'a [Reads], &'a [Writes]),
    /// The connection in this place may go on.
    Ready(usize),
    /// So many milliseconds pass.
    Passes(u64),
}

/// Sockets of which each answer is the next of these events, and then nothing.
#[derive(Drop)]
pub struct ScriptedSockets<'a> {
    alloc: Global,
    events: &'a [Event<'a>],
    named: Vec<usize>,
    now: u64,
    over: Vec<(ScriptedStream<'a>, Why)>,
}

impl<'a> ScriptedSockets<'a> {
    /// Sockets at which nothing happened yet.
    pub fn new(alloc: Global, events: &'a [Event<'a>]) -> ScriptedSockets<'a> {
        ScriptedSockets {
            alloc,
            events,
            named: Vec::new(alloc),
            now: 0,
            over: Vec::new(alloc),
        }
    }

    /// The connections that are over, in the order in which they ended, as far as there was memory to keep them.
    pub fn over(&self) -> &[(ScriptedStream<'a>, Why)] {
        self.over.as_slice()
    }
}

impl<'a> Sockets for ScriptedSockets<'a> {
    type Stream = ScriptedStream<'a>;

    ghost traffic = { λ _. None };

    ghost named = { λ sockets. sockets.named.items };

    ghost clock = { λ sockets. sockets.now };

    fn listen(&mut self) -> io::Result<()> {
        Ok(())
    }

    fn accept(&mut self, place: usize) -> io::Result<Option<ScriptedStream<'a>>> {
        if let Some(Event::Comes(reads, writes)) = self.events.first() {
            let stream = ScriptedStream::new(self.alloc, place, reads, writes);
            self.events = &self.events[1..];
            return Ok(Some(stream));
        }
        Ok(None)
    }

    // Without memory to name it, a connection that may go on is not named.
    fn ask(&mut self, _wait: Duration) -> io::Result<()> {
        self.named.clear();
        match self.events.first() {
            Some(Event::Ready(place)) => {
                let _ = self.named.push(*place);
            }
            Some(Event::Passes(time)) => self.now = self.now.saturating_add(*time),
            _ => return Ok(()),
        }
        self.events = &self.events[1..];
        Ok(())
    }

    fn named(&self) -> &[usize] {
        self.named.as_slice()
    }

    fn now(&self) -> u64 {
        self.now
    }

    fn end(&mut self, stream: ScriptedStream<'a>, _number: u32, why: Why) {
        let _ = self.over.push((stream, why));
    }
}
