//! The SELECTs of a walk over a register's tables: the rows of one table with one number in a column, or how many rows
//! it has.

ghost use Rattle.std.specs.Prelude.{◌≡◌, ◌↔◌, ◌<◌, ◌^◌, ◌∷◌, [], pos, length, filter, IfErr, IfOk, IfSome, IsTrue};
ghost use Rattle.sqlite.specs.Held.{state};
ghost use Rattle.sqlite.specs.State.{FailsToQuery, HasCleanDisk, Shown};
ghost use Rattle.sqlite.specs.declared.types.Value.TheVariants.{Int};
ghost use Rattle.register_tables.specs.Reads.{AsksOurs, KnowsOnOk, PicksInOrder, has_second, has_texts, HasEarly};
ghost use Rattle.register_tables.specs.Reads.{IsCounted};
ghost use Rattle.table_rows.specs.Leaving.{OnlyQueries};
ghost use Rattle.table_rows.specs.Queries.{IsQueryText};
ghost use Rattle.table_rows.specs.Picking.{has_number, CountsTo, Picks, rows_in};
ghost use Rattle.register_rows.specs.Schema.{common_tables, kept_table, finding_table, filing_table, fact_table};

use sqlite::types::ValueRef;
use sqlite::{Alter, Connection, Error, Row, params};
use table_rows::{count_in, select};

/// The rows that this text selects by a number.
fn numbered<S: Alter>(conn: &mut Connection<S>, sql: &str, number: u64) -> Result<Vec<Row>, Error>
    requires text { IsQueryText sql.now }
    requires number { number < 2 ^ 63 }
    ensures shown { HasCleanDisk (state S.Store conn.new)
        → IfOk result (λ rows.
        Shown sql.now (Int (pos number) ∷ []) (state S.Store conn.old) (state S.Store conn.new) rows.items) }
    ensures failed { HasCleanDisk (state S.Store conn.new)
        → IfErr result (FailsToQuery sql.now (Int (pos number) ∷ []) (state S.Store conn.old)
        (state S.Store conn.new)) }
    ensures leaves { OnlyQueries S.Store conn.old conn.new result }
{
    select(conn, sql, params![number as i64])
}

/// The count that this text answers, or `None` if there are more rows than SQLite counts.
fn counted<S: Alter>(conn: &mut Connection<S>, sql: &str) -> Result<Option<u64>, Error>
    requires { IsQueryText sql.now }
    ensures shown { HasCleanDisk (state S.Store conn.new)
        → IfOk result (IsCounted sql.now (state S.Store conn.old) (state S.Store conn.new)) }
    ensures failed { HasCleanDisk (state S.Store conn.new)
        → IfErr result (FailsToQuery sql.now [] (state S.Store conn.old) (state S.Store conn.new)) }
    ensures leaves { OnlyQueries S.Store conn.old conn.new result }
{
    let rows = select(conn, sql, &[])?;
    Ok(count_in(&rows))
}

const KEPT_AT: &str = "SELECT seq, filer, idem, body, number FROM kept WHERE seq = ?1 ORDER BY seq";

/// The kept rows with this place.
pub(crate) fn kept_at<S: Alter>(conn: &mut Connection<S>, seq: u64) -> Result<Vec<Row>, Error>
    requires { seq < 2 ^ 63 }
    ensures asks { AsksOurs common_tables S.Store conn.old conn.new result (λ rows db.
        Picks kept_table (has_number seq) rows.items db) }
    ensures known { KnowsOnOk KEPT_AT.now (state S.Store conn.old) (state S.Store conn.new) result }
{
    numbered(conn, KEPT_AT, seq)
}

const FINDINGS_AT: &str = "SELECT seq, pos, code, place FROM finding WHERE seq = ?1 ORDER BY pos";

/// The findings of the request at this place, by `pos`.
pub(crate) fn findings_at<S: Alter>(conn: &mut Connection<S>, seq: u64) -> Result<Vec<Row>, Error>
    requires { seq < 2 ^ 63 }
    ensures asks { AsksOurs common_tables S.Store conn.old conn.new result (λ rows db.
        PicksInOrder finding_table (has_number seq) rows.items db) }
    ensures known { KnowsOnOk FINDINGS_AT.now (state S.Store conn.old) (state S.Store conn.new) result }
{
    numbered(conn, FINDINGS_AT, seq)
}

const FILINGS_OF: &str = "SELECT number, seq FROM filing WHERE seq = ?1 ORDER BY number";

/// The filings of the request at this place.
pub(crate) fn filings_of<S: Alter>(conn: &mut Connection<S>, seq: u64) -> Result<Vec<Row>, Error>
    requires { seq < 2 ^ 63 }
    ensures asks { AsksOurs common_tables S.Store conn.old conn.new result (λ rows db.
        Picks filing_table (has_second seq) rows.items db) }
    ensures known { KnowsOnOk FILINGS_OF.now (state S.Store conn.old) (state S.Store conn.new) result }
{
    numbered(conn, FILINGS_OF, seq)
}

const FACTS_NUMBERED: &str =
    "SELECT number, pos, id, concept, dimensions, value, decimals FROM fact WHERE number = ?1 ORDER BY pos";

/// The facts of the filing with this number, by `pos`.
pub(crate) fn facts_numbered<S: Alter>(
    conn: &mut Connection<S>,
    number: u64,
) -> Result<Vec<Row>, Error>
    requires { number < 2 ^ 63 }
    ensures asks { AsksOurs common_tables S.Store conn.old conn.new result (λ rows db.
        PicksInOrder fact_table (has_number number) rows.items db) }
    ensures known { KnowsOnOk FACTS_NUMBERED.now (state S.Store conn.old) (state S.Store conn.new) result }
{
    numbered(conn, FACTS_NUMBERED, number)
}

const PLACES_WITH_KEY: &str = "SELECT seq FROM kept WHERE filer = ?1 AND idem = ?2 ORDER BY seq";

/// How many kept rows have this filer and key.
pub(crate) fn count_with_key<S: Alter>(
    conn: &mut Connection<S>,
    filer: &[u8],
    key: &[u8],
) -> Result<usize, Error>
    ensures { AsksOurs common_tables S.Store conn.old conn.new result (λ count db.
        count ≡ length (filter (has_texts filer.now key.now) (rows_in db kept_table))) }
{
    let rows = select(
        conn,
        PLACES_WITH_KEY,
        &[ValueRef::Text(filer), ValueRef::Text(key)],
    )?;
    Ok(rows.len())
}

const COUNT_KEPT: &str = "SELECT count(*) FROM kept";

/// How many rows `kept` has, or `None` if it has more than SQLite counts.
pub(crate) fn count_kept<S: Alter>(conn: &mut Connection<S>) -> Result<Option<u64>, Error>
    ensures { AsksOurs common_tables S.Store conn.old conn.new result (λ found db.
        IfSome found (λ count. CountsTo kept_table count db)) }
{
    counted(conn, COUNT_KEPT)
}

const COUNT_FINDINGS: &str = "SELECT count(*) FROM finding";

/// How many rows `finding` has, or `None` if it has more than SQLite counts.
pub(crate) fn count_findings<S: Alter>(conn: &mut Connection<S>) -> Result<Option<u64>, Error>
    ensures { AsksOurs common_tables S.Store conn.old conn.new result (λ found db.
        IfSome found (λ count. CountsTo finding_table count db)) }
{
    counted(conn, COUNT_FINDINGS)
}

const COUNT_FILINGS: &str = "SELECT count(*) FROM filing";

/// How many rows `filing` has, or `None` if it has more than SQLite counts.
pub(crate) fn count_filings<S: Alter>(conn: &mut Connection<S>) -> Result<Option<u64>, Error>
    ensures { AsksOurs common_tables S.Store conn.old conn.new result (λ found db.
        IfSome found (λ count. CountsTo filing_table count db)) }
{
    counted(conn, COUNT_FILINGS)
}

const COUNT_FACTS: &str = "SELECT count(*) FROM fact";

/// How many rows `fact` has, or `None` if it has more than SQLite counts.
pub(crate) fn count_facts<S: Alter>(conn: &mut Connection<S>) -> Result<Option<u64>, Error>
    ensures { AsksOurs common_tables S.Store conn.old conn.new result (λ found db.
        IfSome found (λ count. CountsTo fact_table count db)) }
{
    counted(conn, COUNT_FACTS)
}

const COUNT_EARLY: &str = "SELECT count(*) FROM kept WHERE seq < 1";

/// Whether a kept row lies before the first place.
pub(crate) fn has_early<S: Alter>(conn: &mut Connection<S>) -> Result<bool, Error>
    ensures { AsksOurs common_tables S.Store conn.old conn.new result (λ found db. IsTrue found ↔ HasEarly db) }
{
    let found = counted(conn, COUNT_EARLY)?;
    match found {
        Some(count) => Ok(count > 0),
        // There are more than SQLite counts.
        None => Ok(true),
    }
}
