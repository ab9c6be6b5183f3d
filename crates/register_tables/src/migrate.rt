//! A register in an earlier form is brought into the present one.

ghost use Rattle.std.specs.Prelude.{◌≡◌, ◌<◌, ◌^◌, false, None, IfErr, IfOk};
ghost use Rattle.sqlite.specs.Held.{state};
ghost use Rattle.sqlite.specs.State.{HasCleanDisk};
ghost use Rattle.table_rows.specs.Leaving.{OnlyReads};
ghost use Rattle.table_rows.specs.Standing.{IsAtRest};
ghost use Rattle.table_rows.specs.Statements.{WritesAll};
ghost use Rattle.register_tables.specs.Migrating.{write_fault, migrating, IsNotSurveyed, IsSurveyed, MigratesRegister};
ghost use Rattle.register_tables.specs.Opening.{AreWithin};

use crate::fault::OpenFault;
use crate::opening::form::Earlier;
use crate::opening::watch::Unwatched;
use crate::opening::{Counts, read_form, read_in};
use crate::schema::create::{CREATE_AMENDS, CREATE_MIGRATED, CREATE_RECEIVED};
use crate::schema::names;
use sqlite::{Alter, Connection, Error, params};
use std::alloc::Global;
use table_rows::{Cause, Statement, is_settled, write_all};

fn write_fault(error: Error) -> OpenFault
    ensures { result ≡ write_fault error }
{
    match Cause::from(error) {
        Cause::Memory => OpenFault::Memory,
        Cause::Disk | Cause::Other => OpenFault::Disk,
    }
}

const INSERT_OLD_STYLE: &str = "INSERT INTO migrated VALUES (1, ?1)";

const RAISE_FORM: &str = "UPDATE intake_meta SET form = 5 WHERE id = 1";

/// Writes what a register of this form lacks, in one transaction.
fn write<S: Alter>(conn: &mut Connection<S>, form: Earlier, old_style: u64) -> Result<(), Error>
    requires autocommit { conn.old.in_transaction ≡ false }
    requires old_style { old_style < 2 ^ 63 }
    ensures { WritesAll S.Store (migrating form old_style) conn.old conn.new result }
{
    match form {
        Earlier::Second => write_all(
            conn,
            &[
                Statement::plain(CREATE_MIGRATED),
                Statement::plain(CREATE_AMENDS),
                Statement::plain(CREATE_RECEIVED),
                Statement {
                    text: INSERT_OLD_STYLE,
                    params: params![old_style as i64],
                },
                Statement::plain(RAISE_FORM),
            ],
        ),
        Earlier::Third => write_all(
            conn,
            &[
                Statement::plain(CREATE_AMENDS),
                Statement::plain(CREATE_RECEIVED),
                Statement::plain(RAISE_FORM),
            ],
        ),
        Earlier::Fourth => write_all(
            conn,
            &[
                Statement::plain(CREATE_RECEIVED),
                Statement::plain(RAISE_FORM),
            ],
        ),
    }
}

/// A register in an earlier form, and how much it holds.
#[derive(Drop)]
struct Survey {
    form: Earlier,
    counts: Counts,
}

/// Reads which earlier form the register is in, and how much it holds.
fn read_earlier<S: Alter>(alloc: Global, conn: &mut Connection<S>) -> Result<Survey, OpenFault>
    requires { conn.old.step_limit ≡ None }
    ensures found { HasCleanDisk (state S.Store conn.new)
        → IfOk result (λ found. IsSurveyed S.Store found.form found.counts conn.old conn.new) }
    ensures few { IfOk result (λ found. AreWithin found.counts) }
    ensures refused { HasCleanDisk (state S.Store conn.new)
        → IfErr result (λ fault. IsNotSurveyed S.Store fault conn.old conn.new) }
    ensures leaves { OnlyReads S.Store conn.old conn.new result }
{
    let Some(form) = read_form(conn)? else {
        return Err(OpenFault::NotOurs);
    };
    let counts = read_in(alloc, conn, Some(form), &mut Unwatched)?;
    Ok(Survey { form, counts })
}

/// Brings a register in an earlier form into the present one, in one transaction. What is said of the new rows holds
/// if the database has no other tables.
pub fn migrate_register<S: Alter>(
    alloc: Global,
    conn: &mut Connection<S>,
) -> Result<Counts, OpenFault>
    requires { IsAtRest conn.old }
    ensures { MigratesRegister S.Store conn.old conn.new result }
{
    prove!(is_settled(conn));
    let found = read_earlier(alloc, conn)?;
    if names::is_blocked(conn.schema(), found.form) {
        return Err(OpenFault::NotOurs);
    }
    match write(conn, found.form, found.counts.old_style) {
        Ok(()) => Ok(found.counts),
        Err(error) => Err(write_fault(error)),
    }
}
