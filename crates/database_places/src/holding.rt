//! What a database holds, by the names of its tables.

use sqlite::{Alter, Connection};

/// The table that each register has.
pub(crate) const OF_REGISTERS: &[u8] = b"intake_meta";

/// The table that each outbox has.
pub(crate) const OF_OUTBOXES: &[u8] = b"outbox_meta";

/// The table that a register has only since its newest version.
const OF_NEW_REGISTERS: &[u8] = b"received";

/// The table that an outbox has only since its newest version.
const OF_NEW_OUTBOXES: &[u8] = b"target";

/// What a database holds, by its tables. The tables of a register may still be damaged or be no register, and likewise
/// those of an outbox.
#[derive(Clone, Copy, Debug, PartialEq, Eq)]
pub enum Holding {
    /// No table.
    Nothing,
    /// The tables of a register of this version.
    Register,
    /// The tables of a register of an earlier version.
    EarlierRegister,
    /// The tables of an outbox of this version.
    Outbox,
    /// The tables of an outbox of an earlier version.
    EarlierOutbox,
    /// Tables of another program.
    Others,
}

/// What this database holds.
pub fn held_in<S: Alter>(conn: &Connection<S>) -> Holding {
    match (has(conn, OF_REGISTERS), has(conn, OF_OUTBOXES)) {
        (true, _) if has(conn, OF_NEW_REGISTERS) => Holding::Register,
        (true, _) => Holding::EarlierRegister,
        (false, true) if has(conn, OF_NEW_OUTBOXES) => Holding::Outbox,
        (false, true) => Holding::EarlierOutbox,
        (false, false) if conn.schema().tables.is_empty() => Holding::Nothing,
        (false, false) => Holding::Others,
    }
}

/// Whether the database has a table of this name.
fn has<S: Alter>(conn: &Connection<S>, name: &[u8]) -> bool {
    conn.schema().table_named(name).is_some()
}
