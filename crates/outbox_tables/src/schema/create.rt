//! Making the tables of an outbox.

ghost use Rattle.std.specs.Prelude.{◌≡◌, false};
ghost use Rattle.sqlite.specs.Held.{state};
ghost use Rattle.outbox_tables.specs.Schema.{is_taken};
ghost use Rattle.outbox_tables.specs.Making.{MakesOutbox};

use crate::fault::OutboxFault;
use key_string::is_filer;
use sqlite::{Alter, Connection, params};
use sqlite_catalog::layout::is_used;
use sqlite_schema::schema::Schema;
use std::alloc::Global;
use table_rows::{Statement, write_all};

/// Whether a table, an index or a view has the name of one of our tables. Names are compared as SQLite does, without
/// case.
fn is_taken(schema: &Schema) -> bool
    ensures { result ≡ is_taken schema.now }
{
    is_used(schema, b"outbox_meta") || is_used(schema, b"entry") || is_used(schema, b"target")
}

const CREATE_META: &str = "CREATE TABLE outbox_meta (id INTEGER PRIMARY KEY, kind TEXT NOT NULL, \
    form INTEGER NOT NULL, filer TEXT NOT NULL) STRICT";

const CREATE_ENTRY: &str = "CREATE TABLE entry (id INTEGER PRIMARY KEY, idem TEXT NOT NULL UNIQUE, \
    body BLOB NOT NULL, state INTEGER NOT NULL, number INTEGER) STRICT";

pub(crate) const CREATE_TARGET: &str =
    "CREATE TABLE target (id INTEGER PRIMARY KEY, number INTEGER NOT NULL) STRICT";

const INSERT_META: &str = "INSERT INTO outbox_meta VALUES (1, 'outbox', 2, ?1)";

/// Makes the tables of an outbox of this filer that has no entry, in one transaction, and answers the filer's code. An
/// outbox's file is its own: if the database had a table before, no clause says what the rows stand for.
pub fn make_outbox<S: Alter>(
    alloc: Global,
    conn: &mut Connection<S>,
    filer: &str,
) -> Result<String, OutboxFault>
    requires autocommit { conn.old.in_transaction ≡ false }
    ensures { MakesOutbox S.Store filer.now conn.old conn.new result }
{
    if !is_filer(filer) {
        return Err(OutboxFault::BadFiler);
    }
    if is_taken(conn.schema()) {
        return Err(OutboxFault::Taken);
    }
    let code = String::from_str(alloc, filer)?;
    let statements = [
        Statement::plain(CREATE_META),
        Statement::plain(CREATE_ENTRY),
        Statement::plain(CREATE_TARGET),
        Statement {
            text: INSERT_META,
            params: params![filer],
        },
    ];
    write_all(conn, &statements)?;
    Ok(code)
}
