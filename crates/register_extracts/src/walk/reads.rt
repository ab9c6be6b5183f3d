//! The SELECT of the row of one kept request.

ghost use Rattle.std.specs.Prelude.{IfOk};
ghost use Rattle.sqlite.specs.Held.{state};
ghost use Rattle.sqlite.specs.State.{HasCleanDisk};
ghost use Rattle.table_rows.specs.Leaving.{OnlyQueries};
ghost use Rattle.table_rows.specs.Reading.{ReadsRows};
ghost use Rattle.register_rows.specs.Schema.{kept_table};
ghost use Rattle.register_tables.specs.Reads.{Knows, by_first};
ghost use Rattle.register_store.specs.Found.{has_seq};
ghost use Rattle.register_extracts.specs.Sent.{sent_columns};

use sqlite::{Alter, Connection, Error, Row, params};
use table_rows::select;

/// The columns `filer`, `idem` and `body` of the kept row at this place.
pub(crate) fn sent_rows<S: Alter>(conn: &mut Connection<S>, seq: i64) -> Result<Vec<Row>, Error>
    ensures read { HasCleanDisk (state S.Store conn.new) → Knows (state S.Store conn.old)
        → IfOk result (λ rows.
        ReadsRows kept_table (has_seq seq) by_first sent_columns rows.items (state S.Store conn.old)
        (state S.Store conn.new)) }
    ensures leaves { OnlyQueries S.Store conn.old conn.new result }
{
    select(
        conn,
        "SELECT filer, idem, body FROM kept WHERE seq = ?1 ORDER BY seq",
        params![seq],
    )
}
