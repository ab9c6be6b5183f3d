//! What the calls on an outbox do to its entries, in two statements at most.

ghost use Rattle.std.specs.Prelude.{◌≡◌, ◌≢◌, ◌+◌, ◌^◌, ◌<◌, ◌≤◌, ℕ, Option, length, find, map, option_map, None, Some};
ghost use Rattle.std.specs.Prelude.{IsTrue, IfOk, IfErr, OnOk, IfSome, ◌⊎◌};
ghost use Rattle.sqlite.specs.State.{Survives};
ghost use Rattle.sqlite.specs.Held.{state};
ghost use Rattle.key_string.specs.Key.{IsKey};
ghost use Rattle.http_messages.specs.Head.{max_body_len};
ghost use Rattle.http_messages.specs.Posting.{IsTarget};
ghost use Rattle.http_messages.specs.Replies.{reply_parts};
ghost use Rattle.filing_model.specs.Outbox.{Entry as Item, moved};
ghost use Rattle.table_rows.specs.Leaving.{MayRead, OnlyReads};
ghost use Rattle.table_rows.specs.Standing.{HasCommitted, Commits};
ghost use Rattle.outbox_tables.specs.Entries.{IsOutbox, numbered, entry_at};
ghost use Rattle.outbox_core.specs.Entries.{opened, has_text, found_at, first_open, with_entry, with_state};
ghost use Rattle.outbox_tables.specs.Rows.{IsOutboxOf, LeavesOutbox, entry_row};
ghost use Rattle.filing_model.specs.Views.{view_state};
ghost use Rattle.outbox_core.specs.Reading.{Finds, view_entry, view_pair, id_and_state};
ghost use Rattle.outbox_core.specs.OutboxParts.{LeavesMoved};
ghost use Rattle.outbox_core.specs.Promises.{ForContents, KeepsOutboxOnRefusal};

use crate::entry::{Entry, read_states, state_in};
use crate::fault::{PutFault, TakeFault};
use crate::rows;
use crate::state::moved;
use crate::write::keep_entry;
use filing_model::State;
use http_messages::Reply;
use outbox_tables::MAX_ENTRIES;
use outbox_tables::columns::entry;
use sqlite::{Alter, Connection, Row};
use std::alloc::Global;
use table_rows::StoreFault;

/// No row has an id as high.
const ID_LIMIT: u64 = 1 << 63;

/// Adds an entry after the `count` that are there.
fn insert_next<S: Alter>(
    conn: &mut Connection<S>,
    count: u64,
    key: &str,
    target: Option<u64>,
    body: &[u8],
) -> Result<u64, PutFault>
    requires { IsTarget target }
    ensures added { ForContents S.Store conn.old conn.new (λ it.
        IsTrue (state S.Store conn.old).is_open → count ≡ length it.entries
        → IsOutbox (with_entry it (opened key.now target body.now)) → IfOk result (λ id. (id ≡ 1 + length it.entries)
        × HasCommitted (IsOutboxOf (with_entry it (opened key.now target body.now))) (state S.Store conn.new)
        × IsTrue (state S.Store conn.new).is_open)) }
    ensures kept { KeepsOutboxOnRefusal (state S.Store conn.old) (state S.Store conn.new) result }
    ensures causes { IfErr result (λ fault. (fault ≡ PutFault.Memory) ⊎ (fault ≡ PutFault.Store)) }
    ensures few { IfOk result (λ id. id ≤ 2 ^ 62) }
    ensures crash { Survives (state S.Store conn.old) (state S.Store conn.new)
        (Commits IsOutboxOf (state S.Store conn.old) (λ it trees.
        count ≡ length it.entries → IsOutbox (with_entry it (opened key.now target body.now))
        → LeavesOutbox (with_entry it (opened key.now target body.now)) trees)) }
{
    if count >= MAX_ENTRIES || !conn.is_autocommit() {
        return Err(PutFault::Store);
    }
    match keep_entry(conn, count + 1, key, target, body) {
        Ok(()) => Ok(count + 1),
        Err(error) => Err(PutFault::from(StoreFault::from(error))),
    }
}

/// Adds an entry, unless its key is used.
pub(crate) fn add_entry<S: Alter>(
    conn: &mut Connection<S>,
    count: u64,
    key: &str,
    target: Option<u64>,
    body: &[u8],
) -> Result<u64, PutFault>
    requires key { IsKey key.now }
    requires target { IsTarget target }
    requires body { length body.now ≤ max_body_len }
    ensures added { ForContents S.Store conn.old conn.new (λ it.
        count ≡ length it.entries → IfOk result (λ id. (id ≡ 1 + length it.entries)
        × HasCommitted (IsOutboxOf (with_entry it (opened key.now target body.now))) (state S.Store conn.new)
        × IsTrue (state S.Store conn.new).is_open)) }
    ensures unused { ForContents S.Store conn.old conn.new (λ it.
        OnOk result (find (has_text key.now) (numbered it.entries) ≡ None)) }
    ensures used { ForContents S.Store conn.old conn.new (λ it. (id : _) → result ≡ Err (PutFault.KeyUsed id)
        → option_map (λ x. x.0) (find (has_text key.now) (numbered it.entries)) ≡ Some id) }
    ensures kept { KeepsOutboxOnRefusal (state S.Store conn.old) (state S.Store conn.new) result }
    ensures few { IfOk result (λ id. id ≤ 2 ^ 62) }
    ensures any_size { result ≢ Err PutFault.TooLarge }
    ensures crash { Survives (state S.Store conn.old) (state S.Store conn.new)
        (Commits IsOutboxOf (state S.Store conn.old) (λ it trees.
        count ≡ length it.entries → LeavesOutbox (with_entry it (opened key.now target body.now)) trees)) }
{
    match rows::id_of_key(conn, key) {
        Ok(None) => insert_next(conn, count, key, target, body),
        Ok(Some(id)) => Err(PutFault::KeyUsed { id }),
        Err(error) => Err(PutFault::from(StoreFault::from(error))),
    }
}

/// The entry in a row, with its target, which is read.
fn read_entry<S: Alter>(
    conn: &mut Connection<S>,
    alloc: Global,
    row: &Row,
) -> Result<Entry, StoreFault>
    ensures read { ForContents S.Store conn.old conn.new (λ it. (x : ℕ × Item)
        → row.now ≡ entry_row x → entry_at it.entries x.0 ≡ Some x.1 → IfOk result (λ entry. view_entry entry ≡ x)) }
    ensures short { IfOk result (λ entry. length entry.body.items ≤ max_body_len) }
    ensures within { IfOk result (λ entry. IsTarget entry.target) }
    ensures leaves { OnlyReads S.Store conn.old conn.new result }
{
    let id = row.get(entry::ID)?;
    if id >= ID_LIMIT {
        return Err(StoreFault::Store);
    }
    let target = rows::target_of(conn, id)?;
    Entry::from_row(alloc, row, target)
}

/// The entry in the row, if there is a row.
fn read_found<S: Alter>(
    conn: &mut Connection<S>,
    alloc: Global,
    found: Option<Row>,
) -> Result<Option<Entry>, StoreFault>
    ensures read { ForContents S.Store conn.old conn.new (λ it. (o : Option (ℕ × Item))
        → found ≡ option_map entry_row o → IfSome o (λ x. entry_at it.entries x.0 ≡ Some x.1) → Finds result o) }
    ensures short { IfOk result (λ entry. IfSome entry (λ e. length e.body.items ≤ max_body_len)) }
    ensures within { IfOk result (λ entry. IfSome entry (λ e. IsTarget e.target)) }
    ensures leaves { MayRead S.Store conn.old conn.new result }
{
    match found {
        Some(row) => Ok(Some(read_entry(conn, alloc, &row)?)),
        None => Ok(None),
    }
}

pub(crate) fn entry_of<S: Alter>(
    conn: &mut Connection<S>,
    alloc: Global,
    id: u64,
) -> Result<Option<Entry>, StoreFault>
    requires { id < 2 ^ 63 }
    ensures found { ForContents S.Store conn.old conn.new (λ it. Finds result (found_at it.entries id)) }
    ensures short { IfOk result (λ entry. IfSome entry (λ e. length e.body.items ≤ max_body_len)) }
    ensures within { IfOk result (λ entry. IfSome entry (λ e. IsTarget e.target)) }
    ensures leaves { OnlyReads S.Store conn.old conn.new result }
{
    let row = rows::entry_with_id(conn, id)?;
    read_found(conn, alloc, row)
}

pub(crate) fn open_entry<S: Alter>(
    conn: &mut Connection<S>,
    alloc: Global,
) -> Result<Option<Entry>, StoreFault>
    ensures found { ForContents S.Store conn.old conn.new (λ it. Finds result (first_open it.entries)) }
    ensures short { IfOk result (λ entry. IfSome entry (λ e. length e.body.items ≤ max_body_len)) }
    ensures within { IfOk result (λ entry. IfSome entry (λ e. IsTarget e.target)) }
    ensures leaves { OnlyReads S.Store conn.old conn.new result }
{
    let row = rows::first_open_entry(conn)?;
    read_found(conn, alloc, row)
}

/// The state of the entry of this id.
fn state_of_entry<S: Alter>(conn: &mut Connection<S>, id: u64) -> Result<Option<State>, StoreFault>
    requires { id < 2 ^ 63 }
    ensures found { ForContents S.Store conn.old conn.new (λ it.
        IfOk result (λ state. option_map view_state state ≡ option_map (λ e. e.state) (entry_at it.entries id))) }
    ensures leaves { OnlyReads S.Store conn.old conn.new result }
{
    let row = rows::state_with_id(conn, id)?;
    match row {
        Some(row) => Ok(Some(state_in(&row)?)),
        None => Ok(None),
    }
}

/// The ids and the states of all entries.
pub(crate) fn states_of<S: Alter>(
    conn: &mut Connection<S>,
    alloc: Global,
) -> Result<Vec<(u64, State)>, StoreFault>
    ensures found { ForContents S.Store conn.old conn.new (λ it.
        IfOk result (λ states. map view_pair states.items ≡ map id_and_state (numbered it.entries))) }
    ensures leaves { OnlyReads S.Store conn.old conn.new result }
{
    let rows = rows::state_rows(conn)?;
    read_states(alloc, rows.as_slice())
}

/// Moves the entry, which is in this state.
fn move_entry<S: Alter>(
    conn: &mut Connection<S>,
    alloc: Global,
    id: u64,
    from: State,
    reply: &Reply,
) -> Result<State, TakeFault>
    requires { id < 2 ^ 63 }
    ensures moved { ForContents S.Store conn.old conn.new (λ it. IsTrue (state S.Store conn.old).is_open
        → option_map (λ e. e.state) (entry_at it.entries id) ≡ Some (view_state from) → IfOk result (λ to.
        (view_state to ≡ moved (view_state from) (reply_parts reply.now))
        × HasCommitted (IsOutboxOf (with_state it id (view_state to))) (state S.Store conn.new)
        × IsTrue (state S.Store conn.new).is_open)) }
    ensures kept { KeepsOutboxOnRefusal (state S.Store conn.old) (state S.Store conn.new) result }
    ensures causes { IfErr result (λ fault. (fault ≡ TakeFault.Memory) ⊎ (fault ≡ TakeFault.Store)) }
    ensures crash { Survives (state S.Store conn.old) (state S.Store conn.new)
        (Commits IsOutboxOf (state S.Store conn.old) (λ it trees.
        option_map (λ e. e.state) (entry_at it.entries id) ≡ Some (view_state from)
        → LeavesOutbox (with_state it id (moved (view_state from) (reply_parts reply.now))) trees)) }
{
    let Ok(to) = moved(alloc, from, reply) else {
        return Err(TakeFault::Memory);
    };
    if to == from {
        return Ok(to);
    }
    match rows::set_state(conn, id, to) {
        Ok(_) => Ok(to),
        Err(error) => Err(TakeFault::from(StoreFault::from(error))),
    }
}

pub(crate) fn take_entry<S: Alter>(
    conn: &mut Connection<S>,
    alloc: Global,
    id: u64,
    reply: &Reply,
) -> Result<State, TakeFault>
    requires { id < 2 ^ 63 }
    ensures moved { ForContents S.Store conn.old conn.new (λ it. IfOk result (λ to.
        (Some (view_state to) ≡ option_map (λ e. moved e.state (reply_parts reply.now)) (entry_at it.entries id))
        × HasCommitted (IsOutboxOf (with_state it id (view_state to))) (state S.Store conn.new)
        × IsTrue (state S.Store conn.new).is_open)) }
    ensures no_entry { ForContents S.Store conn.old conn.new (λ it.
        result ≡ Err TakeFault.NoEntry → entry_at it.entries id ≡ None) }
    ensures kept { KeepsOutboxOnRefusal (state S.Store conn.old) (state S.Store conn.new) result }
    ensures crash { Survives (state S.Store conn.old) (state S.Store conn.new)
        (Commits IsOutboxOf (state S.Store conn.old) (λ it. LeavesMoved it id (reply_parts reply.now))) }
{
    match state_of_entry(conn, id)? {
        Some(from) => move_entry(conn, alloc, id, from, reply),
        None => Err(TakeFault::NoEntry),
    }
}
