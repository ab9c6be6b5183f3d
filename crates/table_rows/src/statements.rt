//! Statements that write, in one transaction.

ghost use Rattle.std.specs.Prelude.{◌≡◌, false, map, IsTrue, IfErr, OnOk};
ghost use Rattle.sqlite.specs.Held.{state};
ghost use Rattle.sqlite.specs.State.{HasCleanDisk};
ghost use Rattle.table_rows.specs.Leaving.{OnlyWrites};
ghost use Rattle.table_rows.specs.Statements.{statement_of, plain, AreDone, StopsAt, WritesAll};

use crate::statement::run;
use sqlite::types::ValueRef;
use sqlite::{Alter, Connection, Error, Transaction};

/// A statement, and the values of its parameters.
#[derive(Clone, Copy)]
pub struct Statement<'a> {
    pub text: &'a str,
    pub params: &'a [ValueRef<'a>],
}

impl<'a> Statement<'a> {
    /// A statement that has no parameters.
    pub fn plain(text: &'a str) -> Statement<'a>
        ensures { statement_of result ≡ plain text.now }
    {
        Statement { text, params: &[] }
    }
}

/// Runs the statements, one after another. It ends at the first that is refused.
fn run_all<S: Alter>(tx: &mut Transaction<'_, S>, statements: &[Statement<'_>]) -> Result<(), Error>
    ensures leaves { OnlyWrites S.Store tx.old.conn tx.new.conn }
    ensures done { HasCleanDisk (state S.Store tx.new.conn.now)
        → OnOk result (AreDone S.Store (map statement_of statements.now) tx.old.conn.now tx.new.conn.now) }
    ensures stopped { HasCleanDisk (state S.Store tx.new.conn.now)
        → IsTrue (state S.Store tx.old.conn.now).in_transaction
        → IfErr result (λ error.
        StopsAt S.Store error (map statement_of statements.now) tx.old.conn.now tx.new.conn.now) }
{
    for statement in statements {
        run(tx, statement.text, statement.params)?;
    }
    Ok(())
}

/// Runs the statements in one transaction. A refusal leaves the database as it was.
pub fn write_all<S: Alter>(
    conn: &mut Connection<S>,
    statements: &[Statement<'_>],
) -> Result<(), Error>
    requires autocommit { conn.old.in_transaction ≡ false }
    ensures { WritesAll S.Store (map statement_of statements.now) conn.old conn.new result }
{
    let mut tx = conn.transaction();
    run_all(&mut tx, statements)?;
    tx.commit()
}
