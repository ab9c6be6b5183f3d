//! The SELECT of the moment of one kept request.

ghost use Rattle.std.specs.Prelude.{IfOk};
ghost use Rattle.sqlite.specs.Held.{state};
ghost use Rattle.sqlite.specs.State.{HasCleanDisk};
ghost use Rattle.table_rows.specs.Leaving.{OnlyQueries};
ghost use Rattle.table_rows.specs.Reading.{ReadsRows};
ghost use Rattle.register_rows.specs.Schema.{received_table};
ghost use Rattle.register_tables.specs.Reads.{KnowsAll};
ghost use Rattle.register_store.specs.Found.{has_seq, unsorted};
ghost use Rattle.register_extracts.specs.Reading.{moment_alone};

use sqlite::{Alter, Connection, Error, Row, params};
use table_rows::select;

const MOMENT_AT: &str = "SELECT moment FROM received WHERE seq = ?1";

/// The column `moment` of the rows of `received` with this place.
pub(crate) fn rows_at<S: Alter>(conn: &mut Connection<S>, seq: i64) -> Result<Vec<Row>, Error>
    ensures read { HasCleanDisk (state S.Store conn.new) → KnowsAll (state S.Store conn.old)
        → IfOk result (λ rows.
        ReadsRows received_table (has_seq seq) unsorted moment_alone rows.items (state S.Store conn.old)
        (state S.Store conn.new)) }
    ensures leaves { OnlyQueries S.Store conn.old conn.new result }
{
    select(conn, MOMENT_AT, params![seq])
}
