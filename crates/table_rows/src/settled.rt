//! Whether a connection is between transactions.

ghost use Rattle.std.specs.Prelude.{◌≡◌, not, IsTrue};
ghost use Rattle.sqlite.specs.Held.{state};
ghost use Rattle.sqlite.specs.State.{IsLive};

use sqlite::{Alter, Connection};

/// Whether no transaction is under way.
pub fn is_settled<S: Alter>(conn: &Connection<S>) -> bool
    ensures value { result ≡ not conn.now.in_transaction }
    ensures live { IsLive (state S.Store conn.now) }
    ensures settled { IsTrue result → IsTrue (state S.Store conn.now).is_open
        → (state S.Store conn.now).now ≡ (state S.Store conn.now).committed }
{
    // For its clause `live`, which the proof needs.
    let _schema = conn.schema();
    conn.is_autocommit()
}
