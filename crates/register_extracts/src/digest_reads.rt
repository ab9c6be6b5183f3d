//! The SELECTs of one kept request.

ghost use Rattle.std.specs.Prelude.{IfOk};
ghost use Rattle.sqlite.specs.Held.{state};
ghost use Rattle.sqlite.specs.State.{HasCleanDisk};
ghost use Rattle.table_rows.specs.Leaving.{OnlyQueries};
ghost use Rattle.table_rows.specs.Reading.{ReadsRows};
ghost use Rattle.register_rows.specs.Schema.{amends_table, kept_table};
ghost use Rattle.register_tables.specs.Reads.{Knows, KnowsAll, by_first};
ghost use Rattle.register_store.specs.Found.{has_seq, target_alone, unsorted};
ghost use Rattle.register_extracts.specs.DigestReading.{kept_columns};

use sqlite::{Alter, Connection, Error, Row, params};
use table_rows::select;

const KEPT_AT: &str = "SELECT filer, idem, body, number FROM kept WHERE seq = ?1 ORDER BY seq";

/// The columns `filer`, `idem`, `body` and `number` of the kept row at this place.
pub(crate) fn rows_at<S: Alter>(conn: &mut Connection<S>, seq: i64) -> Result<Vec<Row>, Error>
    ensures read { HasCleanDisk (state S.Store conn.new) → Knows (state S.Store conn.old)
        → IfOk result (λ rows.
        ReadsRows kept_table (has_seq seq) by_first kept_columns rows.items (state S.Store conn.old)
        (state S.Store conn.new)) }
    ensures leaves { OnlyQueries S.Store conn.old conn.new result }
{
    select(conn, KEPT_AT, params![seq])
}

const TARGET_AT: &str = "SELECT target FROM amends WHERE seq = ?1";

/// The column `target` of the rows of `amends` with this place.
pub(crate) fn target_rows_at<S: Alter>(
    conn: &mut Connection<S>,
    seq: i64,
) -> Result<Vec<Row>, Error>
    ensures read { HasCleanDisk (state S.Store conn.new) → KnowsAll (state S.Store conn.old)
        → IfOk result (λ rows.
        ReadsRows amends_table (has_seq seq) unsorted target_alone rows.items (state S.Store conn.old)
        (state S.Store conn.new)) }
    ensures leaves { OnlyQueries S.Store conn.old conn.new result }
{
    select(conn, TARGET_AT, params![seq])
}
