//! A statement inside a transaction.

ghost use Rattle.sqlite.specs.Values.{bound};
ghost use Rattle.table_rows.specs.Leaving.{RunsInside};

use sqlite::types::ValueRef;
use sqlite::{Alter, Error, Transaction};

/// Runs a statement. It is refused if no transaction is under way.
pub fn run<S: Alter>(
    tx: &mut Transaction<'_, S>,
    sql: &str,
    params: &[ValueRef<'_>],
) -> Result<(), Error>
    ensures { RunsInside S.Store sql.now (bound params.now) tx.old.conn tx.new.conn result }
{
    tx.execute(sql, params)?;
    Ok(())
}
