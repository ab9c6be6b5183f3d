//! An outbox in the earlier form is brought into the present one.

ghost use Rattle.std.specs.Prelude.{◌≡◌, ◌≤◌, ◌^◌, List, length, true, None, IsTrue, IfOk, IfErr};
ghost use Rattle.std.specs.Prelude.{string_bytes};
ghost use Rattle.key_string.specs.Filer.{is_filer};
ghost use Rattle.filing_model.specs.Outbox.{Entry as Item};
ghost use Rattle.sqlite.specs.Effect.{IsDatabase};
ghost use Rattle.sqlite.specs.Held.{state};
ghost use Rattle.sqlite.specs.State.{HasCleanDisk};
ghost use Rattle.table_rows.specs.Leaving.{OnlyReads};
ghost use Rattle.table_rows.specs.Standing.{IsAtRest};
ghost use Rattle.outbox_tables.specs.Schema.{HasCommon};
ghost use Rattle.outbox_tables.specs.Entries.{Contents, contents_of};
ghost use Rattle.outbox_tables.specs.Earlier.{IsEarlierOf, IsFound, IsNotFound};
ghost use Rattle.outbox_tables.specs.Faults.{IsFailure};
ghost use Rattle.outbox_tables.specs.Migrating.{MigratesOutbox};

use crate::fault::OutboxFault;
use crate::opening::{FoundOutbox, count_entries, filer_of};
use crate::schema::create::CREATE_TARGET;
use sqlite::{Alter, Connection};
use sqlite_catalog::layout::is_used;
use std::alloc::Global;
use table_rows::{Statement, is_settled, write_all};

/// Reads the outbox of a database in the earlier form. Nothing is written.
fn read_earlier<S: Alter>(
    alloc: Global,
    conn: &mut Connection<S>,
) -> Result<FoundOutbox, OutboxFault>
    ensures found { HasCleanDisk (state S.Store conn.new) → HasCommon (state S.Store conn.old).now.schema
        → (IsTrue (state S.Store conn.old).is_open → IsDatabase (state S.Store conn.old).now)
        → IfOk result (λ found.
        (entries : List Item)
        × IsEarlierOf (contents_of (string_bytes found.filer) entries) (state S.Store conn.old).now
        × (found.count ≡ length entries)) }
    ensures code { IfOk result (λ found. is_filer (string_bytes found.filer) ≡ true) }
    ensures few { IfOk result (λ found. found.count ≤ 2 ^ 62) }
    ensures read { HasCleanDisk (state S.Store conn.new)
        → IfOk result (λ found. IsFound S.Store (string_bytes found.filer) found.count conn.old conn.new) }
    ensures refused { HasCleanDisk (state S.Store conn.new)
        → IfErr result (λ fault. IsNotFound S.Store fault conn.old conn.new) }
    ensures sound { HasCleanDisk (state S.Store conn.new)
        → (it : Contents) → IsEarlierOf it (state S.Store conn.old).now
        → (state S.Store conn.old).step_limit ≡ None → IfErr result IsFailure }
    ensures leaves { OnlyReads S.Store conn.old conn.new result }
{
    let filer = filer_of(conn, alloc, 1)?;
    let count = count_entries(alloc, conn, &[])?;
    Ok(FoundOutbox { filer, count })
}

const RAISE_FORM: &str = "UPDATE outbox_meta SET form = 2 WHERE id = 1";

/// Brings an outbox from the earlier form into the present one, in one transaction: no entry has a target. What is said
/// of the new rows holds if the database has no other tables.
pub fn migrate_outbox<S: Alter>(
    alloc: Global,
    conn: &mut Connection<S>,
) -> Result<FoundOutbox, OutboxFault>
    requires { IsAtRest conn.old }
    ensures { MigratesOutbox S.Store conn.old conn.new result }
{
    prove!(is_settled(conn));
    let found = read_earlier(alloc, conn)?;
    if is_used(conn.schema(), b"target") {
        return Err(OutboxFault::NotOurs);
    }
    let statements = [
        Statement::plain(CREATE_TARGET),
        Statement::plain(RAISE_FORM),
    ];
    write_all(conn, &statements)?;
    Ok(found)
}
