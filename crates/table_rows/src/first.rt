//! The first row of a query.

ghost use Rattle.sqlite.specs.Held.{state};
ghost use Rattle.sqlite.specs.State.{HasCleanDisk, QueriesRow};
ghost use Rattle.sqlite.specs.Values.{bound};
ghost use Rattle.table_rows.specs.Leaving.{OnlyQueries};
ghost use Rattle.table_rows.specs.Queries.{IsQueryText};
ghost use Rattle.table_rows.specs.Rows.{row_or_none};

use sqlite::types::ValueRef;
use sqlite::{Alter, Connection, Error, Row};

/// The first row that the query selects, or `None` if it selects none. Nothing is written.
pub fn first_row<S: Alter>(
    conn: &mut Connection<S>,
    sql: &str,
    params: &[ValueRef<'_>],
) -> Result<Option<Row>, Error>
    requires { IsQueryText sql.now }
    ensures row { HasCleanDisk (state S.Store conn.new)
        → QueriesRow sql.now (bound params.now) (state S.Store conn.old) (state S.Store conn.new) (row_or_none result) }
    ensures leaves { OnlyQueries S.Store conn.old conn.new result }
{
    match conn.query_row(sql, params) {
        Ok(row) => Ok(Some(row)),
        Err(Error::QueryReturnedNoRows) => Ok(None),
        Err(error) => Err(error),
    }
}
