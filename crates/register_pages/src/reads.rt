//! What is read of a register's tables for the pages, beside what was sent.

ghost use Rattle.std.specs.Prelude.{IfOk};
ghost use Rattle.sqlite.specs.Held.{state};
ghost use Rattle.sqlite.specs.State.{HasCleanDisk};
ghost use Rattle.table_rows.specs.Leaving.{OnlyQueries, OnlyReads};
ghost use Rattle.table_rows.specs.Reading.{ReadsRows};
ghost use Rattle.register_rows.specs.Schema.{kept_table};
ghost use Rattle.register_tables.specs.Reads.{Knows, by_first};
ghost use Rattle.register_store.specs.Reads.{has_filer};
ghost use Rattle.register_pages.specs.Own.{own_columns};

use sqlite::{Alter, Connection, Error, Row, params};
use std::alloc::Global;
use table_rows::{StoreFault, select};
use xbrl_report::{Code, Finding};

const OWN: &str = "SELECT seq, idem, number FROM kept WHERE filer = ?1 ORDER BY seq";

/// The columns `seq`, `idem` and `number` of the filer's kept rows, in the order of their places.
pub(crate) fn own_rows<S: Alter>(conn: &mut Connection<S>, filer: &str) -> Result<Vec<Row>, Error>
    ensures read { HasCleanDisk (state S.Store conn.new) → Knows (state S.Store conn.old)
        → IfOk result (λ rows.
        ReadsRows kept_table (has_filer filer.now) by_first own_columns rows.items (state S.Store conn.old)
        (state S.Store conn.new)) }
    ensures leaves { OnlyQueries S.Store conn.old conn.new result }
{
    select(conn, OWN, params![filer])
}

/// The column `target` of the row of `amends` for the request at this place, if it has one.
fn target_rows<S: Alter>(conn: &mut Connection<S>, seq: i64) -> Result<Vec<Row>, Error>
    ensures { OnlyQueries S.Store conn.old conn.new result }
{
    select(
        conn,
        "SELECT target FROM amends WHERE seq = ?1",
        params![seq],
    )
}

/// The number in the one column of the first row, if there is a row.
fn read_target(rows: &[Row]) -> Result<Option<u64>, StoreFault> {
    match rows.first() {
        None => Ok(None),
        Some(row) => Ok(Some(row.get(0)?)),
    }
}

/// The filing that the request in this row names as the one to replace, if any.
fn target_in<S: Alter>(conn: &mut Connection<S>, seq: i64) -> Result<Option<u64>, StoreFault>
    ensures { OnlyReads S.Store conn.old conn.new result }
{
    let rows = target_rows(conn, seq)?;
    read_target(&rows)
}

/// The filing that the request at this place names as the one to replace, if any.
pub(crate) fn target_at<S: Alter>(
    conn: &mut Connection<S>,
    place: u64,
) -> Result<Option<u64>, StoreFault>
    ensures { OnlyReads S.Store conn.old conn.new result }
{
    match i64::try_from(place) {
        Ok(seq) => target_in(conn, seq),
        Err(_) => Err(StoreFault::Store),
    }
}

/// The columns `code` and `place` of the findings of the request at this place.
fn finding_rows<S: Alter>(conn: &mut Connection<S>, seq: i64) -> Result<Vec<Row>, Error>
    ensures { OnlyQueries S.Store conn.old conn.new result }
{
    select(
        conn,
        "SELECT code, place FROM finding WHERE seq = ?1 ORDER BY pos",
        params![seq],
    )
}

/// The finding of such a row.
fn read_finding(row: &Row) -> Result<Finding, StoreFault> {
    let number: i64 = row.get(0)?;
    let place: Vec<u8> = row.get(1)?;
    match (Code::of_number(number), String::from_utf8(place)) {
        (Some(code), Ok(place)) => Ok(Finding { place, code }),
        _ => Err(StoreFault::Store),
    }
}

/// The findings of such rows.
fn read_findings(alloc: Global, rows: &[Row]) -> Result<Vec<Finding>, StoreFault> {
    let mut list = Vec::new(alloc);
    for row in rows {
        list.push(read_finding(row)?)?;
    }
    Ok(list)
}

/// The findings of the request in this row.
fn findings_in<S: Alter>(
    alloc: Global,
    conn: &mut Connection<S>,
    seq: i64,
) -> Result<Vec<Finding>, StoreFault>
    ensures { OnlyReads S.Store conn.old conn.new result }
{
    let rows = finding_rows(conn, seq)?;
    read_findings(alloc, &rows)
}

/// The findings of the request at this place, in order.
pub(crate) fn findings_at<S: Alter>(
    alloc: Global,
    conn: &mut Connection<S>,
    place: u64,
) -> Result<Vec<Finding>, StoreFault>
    ensures { OnlyReads S.Store conn.old conn.new result }
{
    match i64::try_from(place) {
        Ok(seq) => findings_in(alloc, conn, seq),
        Err(_) => Err(StoreFault::Store),
    }
}
