//! What was sent, and what deliveries left.

use filing_model::{Ended, Mark};
use std::marker::Model;

/// Bytes that were sent, for an entry of an outbox or by a stranger.
#[derive(Drop)]
pub struct Sent {
    /// The number of the outbox, and that of its entry.
    pub from: Option<(u64, u64)>,
    pub bytes: Vec<u8>,
}

impl Model for Sent {
    ghost use Rattle.filing_world.specs.World.{Sent as Item};

    ghost Value = { Item };

    ghost view = { λ s. record { from = s.from; bytes = s.bytes.items } };
}

/// What one delivery left: how many bytes of which item came, after how many completed requests, and what was marked
/// and written. It has no end of its own if the intake stopped at one of its requests.
#[derive(Drop)]
pub struct Output {
    pub item: u64,
    pub given: usize,
    pub before: usize,
    pub marks: Vec<Mark>,
    pub ended: Option<Ended>,
    pub bytes: Vec<u8>,
}

impl Model for Output {
    ghost use Rattle.filing_world.specs.World.{Output as Left};

    ghost Value = { Left };

    ghost view = { λ o. record {
      item = o.item;
      given = o.given;
      before = o.before;
      marks = o.marks.items;
      ended = o.ended;
      bytes = o.bytes.items;
    } };
}
