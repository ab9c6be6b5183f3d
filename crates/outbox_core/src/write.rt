//! An entry is put: its row, and that of its target, in one transaction.

ghost use Rattle.std.specs.Prelude.{◌≡◌, ◌<◌, ◌^◌, false, OnOk, OnErr};
ghost use Rattle.sqlite.specs.Held.{state};
ghost use Rattle.sqlite.specs.State.{HasCleanDisk, Survives};
ghost use Rattle.http_messages.specs.Posting.{IsTarget};
ghost use Rattle.outbox_core.specs.Entries.{opened};
ghost use Rattle.outbox_core.specs.Changes.{Adds, AddsInside, AddsTo};
ghost use Rattle.table_rows.specs.Leaving.{OnlyWrites};
ghost use Rattle.table_rows.specs.Standing.{AddsNothing};

use crate::rows::{insert_entry, insert_target};
use sqlite::{Alter, Connection, Error, Transaction};

/// Writes an open entry under the id after the last.
fn write_entry<S: Alter>(
    tx: &mut Transaction<'_, S>,
    id: u64,
    key: &str,
    target: Option<u64>,
    body: &[u8],
) -> Result<(), Error>
    requires id { id < 2 ^ 63 }
    requires target { IsTarget target }
    ensures adds { HasCleanDisk (state S.Store tx.new.conn.now)
        → OnOk result
        (AddsInside id (opened key.now target body.now) (state S.Store tx.old.conn.now)
        (state S.Store tx.new.conn.now)) }
    ensures leaves { OnlyWrites S.Store tx.old.conn tx.new.conn }
{
    insert_entry(tx, id, key, body)?;
    match target {
        Some(number) => insert_target(tx, id, number),
        None => Ok(()),
    }
}

/// Keeps an open entry under the id after the last, in one transaction.
pub(crate) fn keep_entry<S: Alter>(
    conn: &mut Connection<S>,
    id: u64,
    key: &str,
    target: Option<u64>,
    body: &[u8],
) -> Result<(), Error>
    requires autocommit { conn.old.in_transaction ≡ false }
    requires id { id < 2 ^ 63 }
    requires target { IsTarget target }
    ensures autocommit { conn.new.in_transaction ≡ false }
    ensures adds { HasCleanDisk (state S.Store conn.new)
        → OnOk result (Adds id (opened key.now target body.now) (state S.Store conn.old) (state S.Store conn.new)) }
    ensures neither { HasCleanDisk (state S.Store conn.new)
        → OnErr result (AddsNothing (state S.Store conn.old) (state S.Store conn.new)) }
    ensures crash { Survives (state S.Store conn.old) (state S.Store conn.new)
        (AddsTo id (opened key.now target body.now) (state S.Store conn.old).now) }
{
    let mut tx = conn.transaction();
    write_entry(&mut tx, id, key, target, body)?;
    tx.commit()
}
