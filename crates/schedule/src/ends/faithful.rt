//! Stores that give back what was written.

ghost use Rattle.sqlite.specs.Held.{Held, state};
ghost use Rattle.sqlite.specs.State.{HasCleanDisk};
ghost use Rattle.table_rows.proofs.CleanLemmas.{always_clean};

use crate::ends::honest::Honest;
use sqlite::{Alter, FileStore};

/// A store of which each read gives what was written. What a call does to a register or an outbox is proved over any
/// such store: a proof of it for files costs the prover many times as much.
pub(crate) trait Faithful: Alter + Drop {
    // No connection over it ever read anything else.
    ghost faithful: { (conn : Held Self) → HasCleanDisk (state Self.Store conn) };
}

impl<D: Honest> Faithful for FileStore<D> {
    ghost faithful = { always_clean D.honest };
}
