//! Whose turn is next. Turns go round, so that each place that has its turn is given it before long.
ghost use Rattle.std.specs.Prelude.{◌≡◌, ◌≢◌, ◌⊎◌, ◌<◌, ◌≤◌, ◌+◌, ℕ, Bool, true, false, [], length, min};
ghost use Rattle.std.specs.Prelude.{slice_index_or, vec_capacity, IfSome, IfNone, IfOk};
ghost use Rattle.connection_hall.specs.Turns.{NoneHasTurn, count_turns};

use std::alloc::{AllocError, Global};

/// Which places have their turn, and from which one on the next is given. Nobody else writes these.
#[derive(Drop)]
pub(crate) struct Round {
    has_turn: Vec<bool>,
    next: usize,
    /// How many turns are given before this round is over.
    left: usize,
    /// How many places there may be.
    most: usize,
    ghost within: { next ≤ length has_turn.items },
    ghost few: { length has_turn.items ≤ most },
    ghost reserved: { most ≤ vec_capacity has_turn },
}

impl Round {
    ghost use Rattle.connection_hall.specs.Rounds.{turns, count, most, left, called, has_turn, wait, KeepsTurns};
    ghost use Rattle.connection_hall.specs.Rounds.{GivesTurn};

    /// No place yet, and memory for so many.
    pub(crate) fn new(alloc: Global, places: usize) -> Result<Round, AllocError>
        ensures none { IfOk result (λ round. turns round ≡ []) }
        ensures most { IfOk result (λ round. most round ≡ places) }
    {
        Ok(Round {
            has_turn: Vec::with_capacity(alloc, places)?,
            next: 0,
            left: 0,
            most: places,
        })
    }

    /// Adds a place behind the others, which has not its turn.
    pub(crate) fn grow(&mut self)
        requires { count self.old < most self.old }
        ensures count { count self.new ≡ count self.old + 1 }
        ensures turns { (i : ℕ) → has_turn self.new i ≡ has_turn self.old i }
        ensures waits { (i : ℕ) → wait self.new i ≡ wait self.old i }
        ensures most { most self.new ≡ most self.old }
        ensures left { left self.new ≡ left self.old }
    {
        self.has_turn.push_reserved(false);
    }

    /// Leaves out all but so many places. No other waits longer.
    pub(crate) fn shrink(&mut self, places: usize)
        ensures count { count self.new ≡ min places (count self.old) }
        ensures turns { (i : ℕ) → i < places → has_turn self.new i ≡ has_turn self.old i }
        ensures waits { (i : ℕ) → i < places → wait self.new i ≤ wait self.old i }
        ensures most { most self.new ≡ most self.old }
    {
        self.has_turn.truncate(places);
        if self.next > places {
            self.next = 0;
        }
    }

    /// Gives a place its turn, which keeps it until it is given.
    pub(crate) fn call(&mut self, place: usize)
        requires { place < count self.old }
        ensures called { has_turn self.new place ≡ true }
        ensures others { (i : ℕ) → i ≢ place → has_turn self.new i ≡ has_turn self.old i }
        ensures kept { KeepsTurns self.old self.new }
    {
        self.has_turn[place] = true;
    }

    /// Gives each place its turn.
    pub(crate) fn call_all(&mut self)
        ensures called { (i : ℕ) → i < count self.old → has_turn self.new i ≡ true }
        ensures kept { KeepsTurns self.old self.new }
    {
        self.has_turn.fill(true);
    }

    /// Begins a round: one turn is given for each place that has its turn now. Each waits for fewer gives than there
    /// may be places.
    pub(crate) fn begin(&mut self)
        ensures left { left self.new ≡ called self.old }
        ensures rest { self.new ≡ record self.old { left = self.new.left } }
        ensures soon { (i : ℕ) → i < count self.new → wait self.new i < most self.new }
    {
        self.left = count_true(&self.has_turn);
    }

    /// Takes the next turn: that of the first place that has it, from the one behind the last that was given on. Each
    /// other place that has its turn waits for fewer gives than before. `None` if the round is over, or no place has
    /// its turn.
    pub(crate) fn give(&mut self) -> Option<usize>
        ensures given { IfSome result (GivesTurn self.old self.new) }
        ensures none { IfNone result ((left self.old ≡ 0) ⊎ ((i : ℕ) → has_turn self.old i ≡ false)) }
        ensures same { IfNone result (self.new ≡ self.old) }
    {
        if self.left == 0 {
            return None;
        }
        let place = match first_true(&self.has_turn, self.next) {
            Some(place) => place,
            None => first_true(&self.has_turn, 0)?,
        };
        self.has_turn[place] = false;
        self.next = place + 1;
        self.left -= 1;
        Some(place)
    }

    /// Whether a place has its turn.
    pub(crate) fn has_turn(&self, place: usize) -> bool
        ensures { result ≡ has_turn self.now place }
    {
        place < self.has_turn.len() && self.has_turn[place]
    }

    /// Whether some place has its turn.
    pub(crate) fn any(&self) -> bool
        ensures none { result ≡ false → (i : ℕ) → has_turn self.now i ≡ false }
        ensures some { result ≡ true → (i : ℕ) × (has_turn self.now i ≡ true) }
    {
        first_true(&self.has_turn, 0).is_some()
    }
}

/// The first place from this one on that has its turn.
fn first_true(has_turn: &[bool], from: usize) -> Option<usize>
    ensures found { IfSome result (λ place. (from ≤ place) × (place < length has_turn.now)
        × (slice_index_or has_turn.now place false ≡ true)) }
    ensures first { IfSome result (NoneHasTurn has_turn.now from) }
    ensures none { IfNone result ((place : ℕ) → from ≤ place → slice_index_or has_turn.now place false ≡ false) }
{
    for place in from..has_turn.len() {
        if has_turn[place] {
            return Some(place);
        }
    }
    None
}

/// How many places have their turn.
fn count_true(has_turn: &[bool]) -> usize
    ensures { result ≡ count_turns has_turn.now }
{
    has_turn.iter().filter(|has_turn| **has_turn).count()
}
