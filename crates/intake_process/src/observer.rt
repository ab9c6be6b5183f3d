//! What the caller sees and decides while a port is served.

ghost use Rattle.std.specs.Prelude.{◌≡◌, ◌∷◌, [], Bool, List, Option};
ghost use Rattle.intake_process.specs.Observing.{Notes};

use crate::beginning::Totals;
use crate::fault::Refusal;
use crate::process::Closed;

/// What came of a round, in which one request or several were answered.
#[derive(Drop)]
pub enum Went {
    /// They were served, by a register that keeps so many requests now.
    Served { kept: u64 },
    /// They were served, but the database refused a call, and the register was closed like this.
    Failed(Closed),
    /// They were turned away, since the register is closed.
    TurnedAway,
    /// They were turned away, since opening the register for them failed.
    NotOpened(Refusal),
}

/// An observer sees what happens while a port is served, and says when a register that is closed may be opened again.
pub trait Observer {
    // What it answered so far when it was asked whether a register may be opened, if that is known.
    ghost answers: { Self → Option (List Bool) };

    /// The port is open, and the register that serves it holds this much.
    fn ready(&mut self, totals: Totals)
        ensures { answers self.new ≡ answers self.old };

    /// Whether the register, which is closed, may be opened for what came.
    fn may_open(&mut self) -> bool
        ensures { Notes (answers self.old) (answers self.new) (result ∷ []) };

    /// The register is open again, and holds this much.
    fn opened(&mut self, totals: Totals)
        ensures { answers self.new ≡ answers self.old };

    /// A round is over, and this came of it.
    fn ended(&mut self, went: Went)
        ensures { answers self.new ≡ answers self.old };

    /// No more connections are answered, and the register was closed like this.
    fn closed(&mut self, closed: Closed)
        ensures { answers self.new ≡ answers self.old };
}
