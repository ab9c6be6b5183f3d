//! The statements on some rows of the three tables.

ghost use Rattle.std.specs.Prelude.{◌≡◌, ◌^◌, ◌<◌, pos, find, map, option_map, IsTrue, IfOk, OnOk, IsSome, [], ◌∷◌};
ghost use Rattle.sqlite.specs.Values.{or_null};
ghost use Rattle.sqlite.specs.declared.types.Value.TheVariants.{Null, Int, Text, Blob};
ghost use Rattle.sqlite.specs.State.{HasCleanDisk, Survives};
ghost use Rattle.sqlite.specs.Held as held;
ghost use Rattle.table_rows.specs.Leaving.{OnlyQueries, OnlyReads, OnlyWrites};
ghost use Rattle.table_rows.specs.Standing.{HasCommitted, Commits};
ghost use Rattle.outbox_tables.specs.Schema.{entry_table, target_table};
ghost use Rattle.outbox_tables.specs.Entries.{numbered, entry_at, target_at, FitsNumber};
ghost use Rattle.outbox_core.specs.Entries.{has_id, has_text, first_open, with_state};
ghost use Rattle.outbox_core.specs.Changes.{GainsRows};
ghost use Rattle.outbox_tables.specs.Rows.{IsOutboxOf, LeavesOutbox, code_of, number_of, entry_row};
ghost use Rattle.outbox_core.specs.Rows.{id_row, state_row, bare_state_row};
ghost use Rattle.filing_model.specs.Views.{view_state};
ghost use Rattle.outbox_core.specs.Promises.{ForContents, KeepsOutboxOnRefusal};

use filing_model::State;
use sqlite::{Alter, Connection, Error, Row, Transaction, params};
use table_rows::{first_row, run, select};

const ID_OF_KEY: &str = "SELECT id FROM entry WHERE idem = ?1 ORDER BY id";

/// The row of the id of the entry that has the key.
fn id_row_of_key<S: Alter>(conn: &mut Connection<S>, key: &str) -> Result<Option<Row>, Error>
    ensures found { ForContents S.Store conn.old conn.new (λ it.
        IfOk result (λ row. row ≡ option_map id_row (find (has_text key.now) (numbered it.entries)))) }
    ensures leaves { OnlyQueries S.Store conn.old conn.new result }
{
    first_row(conn, ID_OF_KEY, params![key])
}

/// The id of the entry that has the key.
pub(crate) fn id_of_key<S: Alter>(conn: &mut Connection<S>, key: &str) -> Result<Option<u64>, Error>
    ensures found { ForContents S.Store conn.old conn.new (λ it.
        IfOk result (λ id. id ≡ option_map (λ x. x.0) (find (has_text key.now) (numbered it.entries)))) }
    ensures leaves { OnlyReads S.Store conn.old conn.new result }
{
    let row = id_row_of_key(conn, key)?;
    match row {
        Some(row) => Ok(Some(row.get(0)?)),
        None => Ok(None),
    }
}

const ENTRY_WITH_ID: &str =
    "SELECT id, idem, body, state, number FROM entry WHERE id = ?1 ORDER BY id";

/// The row of the entry that has the id.
pub(crate) fn entry_with_id<S: Alter>(
    conn: &mut Connection<S>,
    id: u64,
) -> Result<Option<Row>, Error>
    requires { id < 2 ^ 63 }
    ensures found { ForContents S.Store conn.old conn.new (λ it.
        IfOk result (λ row. row ≡ option_map entry_row (find (has_id id) (numbered it.entries)))) }
    ensures leaves { OnlyQueries S.Store conn.old conn.new result }
{
    first_row(conn, ENTRY_WITH_ID, params![id as i64])
}

const STATE_WITH_ID: &str = "SELECT state, number FROM entry WHERE id = ?1 ORDER BY id";

/// The state and the number of the entry that has the id.
pub(crate) fn state_with_id<S: Alter>(
    conn: &mut Connection<S>,
    id: u64,
) -> Result<Option<Row>, Error>
    requires { id < 2 ^ 63 }
    ensures found { ForContents S.Store conn.old conn.new (λ it.
        IfOk result (λ row. row ≡ option_map bare_state_row (find (has_id id) (numbered it.entries)))) }
    ensures leaves { OnlyQueries S.Store conn.old conn.new result }
{
    first_row(conn, STATE_WITH_ID, params![id as i64])
}

const ENTRIES_IN_STATE: &str =
    "SELECT id, idem, body, state, number FROM entry WHERE state = ?1 ORDER BY id";

/// The row of the open entry with the least id.
pub(crate) fn first_open_entry<S: Alter>(conn: &mut Connection<S>) -> Result<Option<Row>, Error>
    ensures found { ForContents S.Store conn.old conn.new (λ it.
        IfOk result (λ row. row ≡ option_map entry_row (first_open it.entries))) }
    ensures leaves { OnlyQueries S.Store conn.old conn.new result }
{
    first_row(conn, ENTRIES_IN_STATE, params![0i64])
}

const ALL_STATES: &str = "SELECT id, state, number FROM entry ORDER BY id";

/// The id, the state and the number of each entry, in the order of the ids.
pub(crate) fn state_rows<S: Alter>(conn: &mut Connection<S>) -> Result<Vec<Row>, Error>
    ensures found { ForContents S.Store conn.old conn.new (λ it.
        IfOk result (λ rows. rows.items ≡ map state_row (numbered it.entries))) }
    ensures leaves { OnlyQueries S.Store conn.old conn.new result }
{
    select(conn, ALL_STATES, &[])
}

const TARGET_WITH_ID: &str = "SELECT number FROM target WHERE id = ?1";

/// The row of the target of the entry that has the id.
fn target_with_id<S: Alter>(conn: &mut Connection<S>, id: u64) -> Result<Option<Row>, Error>
    requires { id < 2 ^ 63 }
    ensures found { ForContents S.Store conn.old conn.new (λ it.
        IfOk result (λ row. row ≡ option_map (λ number. Int (pos number) ∷ []) (target_at it.entries id))) }
    ensures leaves { OnlyQueries S.Store conn.old conn.new result }
{
    first_row(conn, TARGET_WITH_ID, params![id as i64])
}

/// The target of the entry that has the id, if it has one.
pub(crate) fn target_of<S: Alter>(conn: &mut Connection<S>, id: u64) -> Result<Option<u64>, Error>
    requires { id < 2 ^ 63 }
    ensures found { ForContents S.Store conn.old conn.new (λ it.
        IfOk result (λ target. target ≡ target_at it.entries id)) }
    ensures leaves { OnlyReads S.Store conn.old conn.new result }
{
    let row = target_with_id(conn, id)?;
    match row {
        Some(row) => Ok(Some(row.get(0)?)),
        None => Ok(None),
    }
}

const INSERT_ENTRY: &str = "INSERT INTO entry (id, idem, body, state) VALUES (?1, ?2, ?3, 0)";

/// Adds the row of an open entry of this id.
pub(crate) fn insert_entry<S: Alter>(
    tx: &mut Transaction<'_, S>,
    id: u64,
    key: &str,
    body: &[u8],
) -> Result<(), Error>
    requires { id < 2 ^ 63 }
    ensures gains { HasCleanDisk (held.state S.Store tx.new.conn.now)
        → OnOk result
        (GainsRows entry_table ((Int (pos id) ∷ Text key.now ∷ Blob body.now ∷ Int (pos 0) ∷ Null ∷ []) ∷ [])
        (held.state S.Store tx.old.conn.now) (held.state S.Store tx.new.conn.now)) }
    ensures leaves { OnlyWrites S.Store tx.old.conn tx.new.conn }
{
    run(tx, INSERT_ENTRY, params![id as i64, key, body])
}

const INSERT_TARGET: &str = "INSERT INTO target VALUES (?1, ?2)";

/// Adds the row of the target of the entry of this id.
pub(crate) fn insert_target<S: Alter>(
    tx: &mut Transaction<'_, S>,
    id: u64,
    number: u64,
) -> Result<(), Error>
    requires id { id < 2 ^ 63 }
    requires number { number < 2 ^ 63 }
    ensures gains { HasCleanDisk (held.state S.Store tx.new.conn.now)
        → OnOk result
        (GainsRows target_table ((Int (pos id) ∷ Int (pos number) ∷ []) ∷ []) (held.state S.Store tx.old.conn.now)
        (held.state S.Store tx.new.conn.now)) }
    ensures leaves { OnlyWrites S.Store tx.old.conn tx.new.conn }
{
    run(tx, INSERT_TARGET, params![id as i64, number as i64])
}

fn code_of(state: State) -> u32
    ensures { result ≡ code_of (view_state state) }
{
    match state {
        State::Open => 0,
        State::Confirmed(_) => 1,
        State::Refused => 2,
        State::Clashed => 3,
    }
}

fn number_of(state: State) -> Option<i64>
    requires { FitsNumber (view_state state) }
    ensures { or_null Int result ≡ number_of (view_state state) }
{
    match state {
        State::Confirmed(number) => Some(number as i64),
        _ => None,
    }
}

const SET_STATE: &str = "UPDATE entry SET state = ?2, number = ?3 WHERE id = ?1";

/// Puts the entry of the id into the state.
pub(crate) fn set_state<S: Alter>(
    conn: &mut Connection<S>,
    id: u64,
    state: State,
) -> Result<usize, Error>
    requires id { id < 2 ^ 63 }
    requires number { FitsNumber (view_state state) }
    ensures moved { ForContents S.Store conn.old conn.new (λ it.
        IsTrue (held.state S.Store conn.old).is_open → IsSome (entry_at it.entries id)
        → OnOk result (HasCommitted (IsOutboxOf (with_state it id (view_state state))) (held.state S.Store conn.new)
        × IsTrue (held.state S.Store conn.new).is_open)) }
    ensures kept { KeepsOutboxOnRefusal (held.state S.Store conn.old) (held.state S.Store conn.new) result }
    ensures crash { Survives (held.state S.Store conn.old) (held.state S.Store conn.new)
        (Commits IsOutboxOf (held.state S.Store conn.old) (λ it trees.
        IsSome (entry_at it.entries id) → LeavesOutbox (with_state it id (view_state state)) trees)) }
{
    conn.execute(
        SET_STATE,
        params![id as i64, code_of(state), number_of(state)],
    )
}
