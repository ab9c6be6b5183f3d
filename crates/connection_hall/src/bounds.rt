//! How much is served at once.
ghost use Rattle.std.specs.Prelude.{◌≡◌};
ghost use Rattle.connection_hall.specs.Bounds.{most_lent};

use crate::room::ROOM;
use crate::served::MAX_REQUEST;

/// How much is served at once.
#[derive(Clone, Copy)]
pub struct Bounds {
    /// How many connections are served at once.
    pub places: usize,
    /// How many connections come in all.
    pub connections: u32,
    /// For how many milliseconds a connection may keep its peer waited for; no limit if none is given.
    pub patience: Option<u64>,
    /// How many bytes all connections together may hold and owe, beside a small room of each.
    pub memory: usize,
}

impl Bounds {
    /// How many connections at most have a loan, so that each holds a whole request and one read.
    pub(crate) fn most_lent(&self) -> usize
        ensures { result ≡ most_lent self.now.memory }
    {
        (self.memory / 2 / (MAX_REQUEST + ROOM)).max(1)
    }
}
