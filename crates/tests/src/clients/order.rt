//! A port in memory whose clients may go on in the order that an adversary says.

ghost use Rattle.std.specs.Prelude.{None};

use super::line::{Client, ClientLine};
use super::texts::sent;
use connection_hall::{Sockets, Why};
use std::alloc::{AllocError, Global};
use std::io;
use std::time::Duration;

/// Clients in the order in which they come.
pub type Clients = &'static [Client];

/// The client of this number, from 1.
pub fn client_of(clients: Clients, number: u32) -> Option<&'static Client> {
    let mut before: u32 = 0;
    for client in clients {
        before = before.saturating_add(client.times);
        if number <= before {
            return Some(client);
        }
    }
    None
}

/// How many clients there are.
pub fn count(clients: Clients) -> u32 {
    let mut count: u32 = 0;
    for client in clients {
        count = count.saturating_add(client.times);
    }
    count
}

/// A connection that is over.
#[derive(Drop)]
pub struct Gone {
    /// The number of its client.
    pub number: u32,
    /// What was written to it.
    pub written: Vec<u8>,
    pub why: Why,
    /// How often the others had their turn until then.
    pub round: u64,
}

/// The connections of clients, which come as soon as there is a place. With each ask a millisecond passes.
#[derive(Drop)]
pub struct Order<'a> {
    alloc: Global,
    clients: Clients,
    /// How many came.
    came: u32,
    /// The places that alone may go on at first, one after another. From then on each may.
    first: &'static [usize],
    /// All places, from 0.
    places: Vec<usize>,
    /// Those that may go on, as it was said last.
    named: Vec<usize>,
    now: u64,
    gone: &'a mut Vec<Gone>,
}

impl<'a> Order<'a> {
    /// Clients of which none came yet.
    pub fn new(
        alloc: Global,
        clients: Clients,
        first: &'static [usize],
        places: usize,
        gone: &'a mut Vec<Gone>,
    ) -> Result<Order<'a>, AllocError> {
        let mut all = Vec::new(alloc);
        for place in 0..places {
            all.push(place)?;
        }
        Ok(Order {
            alloc,
            clients,
            came: 0,
            first,
            places: all,
            named: Vec::new(alloc),
            now: 0,
            gone,
        })
    }
}

impl Sockets for Order<'_> {
    type Stream = ClientLine;

    ghost traffic = { λ _. None };

    ghost named = { λ order. order.named.items };

    ghost clock = { λ order. order.now };

    fn listen(&mut self) -> io::Result<()> {
        Ok(())
    }

    fn accept(&mut self, place: usize) -> io::Result<Option<ClientLine>> {
        let number = self.came.saturating_add(1);
        let Some(client) = client_of(self.clients, number) else {
            return Ok(None);
        };
        self.came = number;
        let text = sent(self.alloc, number, client.asks)?;
        let written = Vec::new(self.alloc);
        Ok(Some(ClientLine::new(place, client, number, text, written)))
    }

    fn ask(&mut self, _wait: Duration) -> io::Result<()> {
        self.now = self.now.saturating_add(1);
        self.named.clear();
        match self.first.split_first() {
            Some((&place, rest)) => {
                self.named.push(place)?;
                self.first = rest;
            }
            None => self.named.extend_from_slice(self.places.as_slice())?,
        }
        Ok(())
    }

    fn named(&self) -> &[usize] {
        self.named.as_slice()
    }

    fn now(&self) -> u64 {
        self.now
    }

    fn end(&mut self, stream: ClientLine, _number: u32, why: Why) {
        let gone = Gone {
            number: stream.number,
            written: stream.written,
            why,
            round: self.now,
        };
        let _ = self.gone.push(gone);
    }
}
