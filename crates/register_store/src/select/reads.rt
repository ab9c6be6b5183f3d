//! The SELECTs of some rows of a register's tables. Each reads one table, in the order of its key.

ghost use Rattle.std.specs.Prelude.{◌<◌, ◌^◌, IfOk};
ghost use Rattle.sqlite.specs.Held.{state};
ghost use Rattle.sqlite.specs.State.{HasCleanDisk};
ghost use Rattle.table_rows.specs.Leaving.{OnlyQueries};
ghost use Rattle.table_rows.specs.Reading.{ReadsRows};
ghost use Rattle.register_rows.specs.Schema.{kept_table, fact_table, received_table};
ghost use Rattle.register_store.specs.Found.{has_seq};
ghost use Rattle.register_tables.specs.Reads.{Knows, KnowsAll, by_first, by_second};
ghost use Rattle.register_store.specs.Reads.{has_filer, filer_alone, said};
ghost use Rattle.table_rows.specs.Picking.{has_number};

use sqlite::{Alter, Connection, Error, Row, params};
use table_rows::select;

const PLACES_OF: &str = "SELECT seq FROM kept WHERE filer = ?1 ORDER BY seq";

/// The places of the filer's kept requests, ascending.
pub(crate) fn places_of<S: Alter>(conn: &mut Connection<S>, filer: &str) -> Result<Vec<Row>, Error>
    ensures read { HasCleanDisk (state S.Store conn.new) → Knows (state S.Store conn.old)
        → IfOk result (λ rows.
        ReadsRows kept_table (has_filer filer.now) by_first by_first rows.items (state S.Store conn.old)
        (state S.Store conn.new)) }
    ensures leaves { OnlyQueries S.Store conn.old conn.new result }
{
    select(conn, PLACES_OF, params![filer])
}

const FILER_AT: &str = "SELECT filer FROM kept WHERE seq = ?1 ORDER BY seq";

/// The filer of the kept row at this place.
pub(crate) fn filer_at<S: Alter>(conn: &mut Connection<S>, seq: i64) -> Result<Vec<Row>, Error>
    ensures read { HasCleanDisk (state S.Store conn.new) → Knows (state S.Store conn.old)
        → IfOk result (λ rows.
        ReadsRows kept_table (has_seq seq) by_first filer_alone rows.items (state S.Store conn.old)
        (state S.Store conn.new)) }
    ensures leaves { OnlyQueries S.Store conn.old conn.new result }
{
    select(conn, FILER_AT, params![seq])
}

const FACTS_OF_FILING: &str =
    "SELECT id, concept, dimensions, value, decimals FROM fact WHERE number = ?1 ORDER BY pos";

/// What the filing's facts say, by `pos`.
pub(crate) fn facts_of_filing<S: Alter>(
    conn: &mut Connection<S>,
    number: u64,
) -> Result<Vec<Row>, Error>
    requires { number < 2 ^ 63 }
    ensures read { HasCleanDisk (state S.Store conn.new) → Knows (state S.Store conn.old)
        → IfOk result (λ rows.
        ReadsRows fact_table (has_number number) by_second said rows.items (state S.Store conn.old)
        (state S.Store conn.new)) }
    ensures leaves { OnlyQueries S.Store conn.old conn.new result }
{
    select(conn, FACTS_OF_FILING, params![number as i64])
}

const MOMENT_AT: &str = "SELECT moment FROM received WHERE seq = ?1 ORDER BY seq";

/// The moment of the kept request at this place, if it has one.
pub(crate) fn moment_at<S: Alter>(conn: &mut Connection<S>, seq: i64) -> Result<Vec<Row>, Error>
    ensures read { HasCleanDisk (state S.Store conn.new) → KnowsAll (state S.Store conn.old)
        → IfOk result (λ rows.
        ReadsRows received_table (has_seq seq) by_first by_second rows.items (state S.Store conn.old)
        (state S.Store conn.new)) }
    ensures leaves { OnlyQueries S.Store conn.old conn.new result }
{
    select(conn, MOMENT_AT, params![seq])
}
