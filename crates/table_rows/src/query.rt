//! The rows of a query.

ghost use Rattle.std.specs.Prelude.{IfErr, IfOk};
ghost use Rattle.sqlite.specs.Held.{state};
ghost use Rattle.sqlite.specs.State.{FailsToQuery, HasCleanDisk, Shown};
ghost use Rattle.sqlite.specs.Values.{bound};
ghost use Rattle.table_rows.specs.Leaving.{OnlyQueries};
ghost use Rattle.table_rows.specs.Queries.{IsQueryText};

use sqlite::types::ValueRef;
use sqlite::{Alter, Connection, Error, Row};

/// All rows that the query selects. Nothing is written.
pub fn select<S: Alter>(
    conn: &mut Connection<S>,
    sql: &str,
    params: &[ValueRef<'_>],
) -> Result<Vec<Row>, Error>
    requires { IsQueryText sql.now }
    ensures shown { HasCleanDisk (state S.Store conn.new)
        → IfOk result (λ rows.
        Shown sql.now (bound params.now) (state S.Store conn.old) (state S.Store conn.new) rows.items) }
    ensures failed { HasCleanDisk (state S.Store conn.new)
        → IfErr result (FailsToQuery sql.now (bound params.now) (state S.Store conn.old) (state S.Store conn.new)) }
    ensures leaves { OnlyQueries S.Store conn.old conn.new result }
{
    conn.query_all(sql, params)
}
