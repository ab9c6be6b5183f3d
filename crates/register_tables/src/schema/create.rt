//! Making the tables of a register.

ghost use Rattle.std.specs.Prelude.{◌≡◌, ◌≢◌, ◌↔◌, false, Err, IsTrue, IfErr};
ghost use Rattle.sqlite.specs.Held.{state};
ghost use Rattle.sqlite.specs.declared.error.Error.{Error};
ghost use Rattle.sqlite.specs.State.{HasCleanDisk};
ghost use Rattle.register_tables.specs.Faults.{create_fault};
ghost use Rattle.register_tables.specs.Making.{making, MakesRegister};
ghost use Rattle.register_rows.specs.Schema.{is_taken};
ghost use Rattle.table_rows.specs.Statements.{AreUndone, WritesAll};

use crate::fault::CreateFault;
use crate::schema::names;
use sqlite::{Alter, Connection, Error};
use table_rows::{Statement, is_settled, write_all};

const CREATE_META: &str =
    "CREATE TABLE intake_meta (id INTEGER PRIMARY KEY, kind TEXT NOT NULL, form INTEGER NOT NULL) STRICT";

const CREATE_KEPT: &str =
    "CREATE TABLE kept (seq INTEGER PRIMARY KEY, filer TEXT NOT NULL, idem TEXT NOT NULL, \
    body BLOB NOT NULL, number INTEGER, UNIQUE (filer, idem)) STRICT";

const CREATE_FINDING: &str =
    "CREATE TABLE finding (seq INTEGER NOT NULL, pos INTEGER NOT NULL, code INTEGER NOT NULL, \
    place BLOB NOT NULL, PRIMARY KEY (seq, pos)) STRICT";

const CREATE_FILING: &str =
    "CREATE TABLE filing (number INTEGER PRIMARY KEY, seq INTEGER NOT NULL UNIQUE) STRICT";

const CREATE_FACT: &str =
    "CREATE TABLE fact (number INTEGER NOT NULL, pos INTEGER NOT NULL, id BLOB NOT NULL, \
    concept BLOB NOT NULL, dimensions BLOB NOT NULL, value BLOB, decimals INTEGER, \
    PRIMARY KEY (number, pos)) STRICT";

pub(crate) const CREATE_MIGRATED: &str =
    "CREATE TABLE migrated (id INTEGER PRIMARY KEY, last INTEGER NOT NULL) STRICT";

pub(crate) const CREATE_AMENDS: &str =
    "CREATE TABLE amends (seq INTEGER PRIMARY KEY, target INTEGER NOT NULL) STRICT";

pub(crate) const CREATE_RECEIVED: &str =
    "CREATE TABLE received (seq INTEGER PRIMARY KEY, moment INTEGER NOT NULL) STRICT";

const INSERT_META: &str = "INSERT INTO intake_meta VALUES (1, 'register', 5)";

const INSERT_NO_OLD_STYLE: &str = "INSERT INTO migrated VALUES (1, 0)";

/// Makes the tables, and the rows that every register has, in one transaction.
fn make<S: Alter>(conn: &mut Connection<S>) -> Result<(), Error>
    requires autocommit { conn.old.in_transaction ≡ false }
    ensures { WritesAll S.Store making conn.old conn.new result }
{
    write_all(
        conn,
        &[
            Statement::plain(CREATE_META),
            Statement::plain(CREATE_KEPT),
            Statement::plain(CREATE_FINDING),
            Statement::plain(CREATE_FILING),
            Statement::plain(CREATE_FACT),
            Statement::plain(CREATE_MIGRATED),
            Statement::plain(CREATE_AMENDS),
            Statement::plain(CREATE_RECEIVED),
            Statement::plain(INSERT_META),
            Statement::plain(INSERT_NO_OLD_STYLE),
        ],
    )
}

/// Makes the tables of a register that has no request, in one transaction. A register's file is its own: if the
/// database had a table before, no clause says what the rows stand for.
pub fn make_register<S: Alter>(conn: &mut Connection<S>) -> Result<(), CreateFault>
    requires autocommit { conn.old.in_transaction ≡ false }
    ensures makes { MakesRegister S.Store conn.old conn.new result }

    // The answer is Taken if and only if one of the names is in use. Any other refusal has its cause in a statement or
    // in the commit.
    ensures taken { (result ≡ Err CreateFault.Taken) ↔ IsTrue (is_taken (state S.Store conn.old).now.schema) }
    ensures failed { HasCleanDisk (state S.Store conn.new)
        → IfErr result (λ fault.
        fault ≢ CreateFault.Taken
        → (error : Error) × (fault ≡ create_fault error) × AreUndone S.Store error making conn.old conn.new) }
{
    prove!(is_settled(conn));
    if names::is_taken(conn.schema()) {
        return Err(CreateFault::Taken);
    }
    match make(conn) {
        Ok(()) => Ok(()),
        Err(error) => Err(CreateFault::from(error)),
    }
}
