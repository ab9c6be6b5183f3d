//! A stream that never waits.
ghost use Rattle.std.specs.Prelude.{◌≡◌, ◌≢◌, ◌<◌, ◌≤◌, ℕ, Bool, List, Option, length, take, nat_lt, is_err};
ghost use Rattle.std.specs.Io.KnownBytes.{append_known};
ghost use Rattle.connection_hall.specs.Streams.{got_len, gave_nothing, gave_end, took_len};

/// What a read came to.
#[derive(Clone, Copy, Debug, PartialEq, Eq)]
pub enum Got {
    /// So many bytes came, and at least one.
    Bytes(usize),
    /// Nothing is there now.
    Nothing,
    /// Nothing comes any more.
    End,
}

/// A write that failed.
#[derive(Clone, Copy, Debug, PartialEq, Eq)]
pub struct Broken;

/// A stream that never waits. Which bytes come, when, and in which parts, is up to whoever implements this. A call that
/// the system only interrupts is made again, since nobody is told when it could be.
pub trait Stream {
    /// What is noted of an arrival that was answered.
    type Note;

    // The number of the place under which it is watched.
    ghost place: { Self → ℕ };

    // What was read of it so far, if that is known.
    ghost came: { Self → Option (List ℕ) };

    // What was written to it so far, if that is known.
    ghost went: { Self → Option (List ℕ) };

    // Whether nothing was there at its last read.
    ghost is_idle: { Self → Bool };

    // Whether its last read found that nothing comes any more.
    ghost is_ended: { Self → Bool };

    // Whether its last write took less than it was given.
    ghost is_stuck: { Self → Bool };

    // Whether its last write failed.
    ghost is_broken: { Self → Bool };

    /// Reads what is there into the front of the room. A read of no bytes would look like the end.
    fn read(&mut self, room: &mut [u8]) -> Got
        requires { 0 < length room.old }
        ensures bound { got_len result ≤ length room.new }
        ensures some { result ≢ Got.Bytes 0 }
        ensures place { place self.new ≡ place self.old }
        ensures came { came self.new ≡ append_known (came self.old) (take (got_len result) room.new) }
        ensures went { went self.new ≡ went self.old }
        ensures idle { is_idle self.new ≡ gave_nothing result }
        ensures ended { is_ended self.new ≡ gave_end result }
        ensures stuck { is_stuck self.new ≡ is_stuck self.old }
        ensures broken { is_broken self.new ≡ is_broken self.old };

    /// Writes what goes of the text, from its front, and answers how many bytes: 0 if none goes now.
    fn write(&mut self, text: &[u8]) -> Result<usize, Broken>
        ensures bound { took_len result ≤ length text.now }
        ensures place { place self.new ≡ place self.old }
        ensures came { came self.new ≡ came self.old }
        ensures went { went self.new ≡ append_known (went self.old) (take (took_len result) text.now) }
        ensures idle { is_idle self.new ≡ is_idle self.old }
        ensures ended { is_ended self.new ≡ is_ended self.old }
        ensures stuck { is_stuck self.new ≡ nat_lt (took_len result) (length text.now) }
        ensures broken { is_broken self.new ≡ is_err result };

    /// Notes what an arrival on it was answered with.
    fn note(&mut self, note: &Self::Note)
        ensures place { place self.new ≡ place self.old }
        ensures came { came self.new ≡ came self.old }
        ensures went { went self.new ≡ went self.old }
        ensures idle { is_idle self.new ≡ is_idle self.old }
        ensures ended { is_ended self.new ≡ is_ended self.old }
        ensures stuck { is_stuck self.new ≡ is_stuck self.old }
        ensures broken { is_broken self.new ≡ is_broken self.old };
}
