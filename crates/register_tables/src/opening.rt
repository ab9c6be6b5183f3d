//! What an opening finds in a database: which form its register is in, and how much that holds. The rows are audited by
//! a walk over the requests.

ghost use Rattle.std.specs.Prelude.{◌≡◌, [], ◌∷◌, None, IsTrue, IfErr, IfOk, IfSome, OnOk};
ghost use Rattle.sqlite.specs.Held.{state};
ghost use Rattle.sqlite.specs.State.{HasCleanDisk};
ghost use Rattle.table_rows.specs.Leaving.{OnlyReads};
ghost use Rattle.table_rows.specs.Standing.{IsAtRest};
ghost use Rattle.register_rows.specs.Register.{form_row};
ghost use Rattle.register_tables.specs.Earlier.{number_of_form, tables_in, SaysAmends};
ghost use Rattle.register_tables.specs.Faults.{meta_fault};
ghost use Rattle.register_tables.specs.Opening.{CountsIn, HasNoForm, HasBeside, IsDamagedIn, IsRead, KnowsAmends};
ghost use Rattle.register_tables.specs.Opening.{KnowsMigrated, ReadsIn, ReadsRegister, SaysBeside};
ghost use Rattle.register_tables.specs.Opening.{SaysDates};
ghost use Rattle.register_tables.specs.Opening.{SaysMigrated, SaysOldStyle, SaysNothing, all_meta};
ghost use Rattle.register_tables.specs.Reads.{ReadsOurs, Never};

pub(crate) mod form;
pub(crate) mod walk;
pub(crate) mod watch;

use crate::fault::OpenFault;
use crate::opening::form::{Earlier, form_in};
use crate::opening::walk::{Totals, count_by_walk};
use crate::opening::watch::Watch;
use crate::select::reads;
use register_rows::columns::migrated;
use register_rows::{Catalogue, Cell, Dates, is_row, number_at};
use sqlite::{Alter, Connection, Error, Row};
use std::alloc::Global;
use table_rows::{Cause, is_settled};

fn meta_fault(error: Error) -> OpenFault
    ensures { result ≡ meta_fault error }
{
    match Cause::from(error) {
        Cause::Memory => OpenFault::Memory,
        Cause::Disk => OpenFault::Disk,
        Cause::Other => OpenFault::NotOurs,
    }
}

/// Reads in which form the register is, by the one row of `intake_meta`: an earlier one, or the present one.
pub(crate) fn read_form<S: Alter>(conn: &mut Connection<S>) -> Result<Option<Earlier>, OpenFault>
    ensures read { HasCleanDisk (state S.Store conn.new)
        → IfOk result (λ form. IsRead S.Store all_meta conn.old conn.new (form_row (number_of_form form) ∷ [])) }
    ensures refused { HasCleanDisk (state S.Store conn.new)
        → IfErr result (λ fault. HasNoForm S.Store fault conn.old conn.new) }
    ensures leaves { OnlyReads S.Store conn.old conn.new result }
{
    match reads::meta_rows(conn) {
        Ok(rows) => match form_in(&rows) {
            Some(form) => Ok(form),
            None => Err(OpenFault::NotOurs),
        },
        Err(error) => Err(meta_fault(error)),
    }
}

/// What is kept of the rows of the tables that not every form has, each in the order of its key. A table that this form
/// lacks is `None`.
#[derive(Drop)]
struct Beside {
    migrated: Option<Vec<Row>>,
    amends: Vec<Row>,
    received: Option<Dates>,
}

fn migrated_in<S: Alter>(
    conn: &mut Connection<S>,
    form: Option<Earlier>,
) -> Result<Option<Vec<Row>>, OpenFault>
    ensures reads { ReadsOurs (tables_in form) S.Store conn.old conn.new result (λ rows db. SaysMigrated form rows db)
        Never }
    ensures known { HasCleanDisk (state S.Store conn.new)
        → OnOk result (KnowsMigrated form (state S.Store conn.old).now.schema) }
{
    match form {
        Some(Earlier::Second) => Ok(None),
        _ => Ok(Some(reads::migrated_rows(conn)?)),
    }
}

fn amends_in<S: Alter>(
    alloc: Global,
    conn: &mut Connection<S>,
    form: Option<Earlier>,
) -> Result<Vec<Row>, OpenFault>
    ensures reads { ReadsOurs (tables_in form) S.Store conn.old conn.new result
        (λ rows db. SaysAmends form rows.items db)
        Never }
    ensures known { HasCleanDisk (state S.Store conn.new)
        → OnOk result (KnowsAmends form (state S.Store conn.old).now.schema) }
{
    match form {
        Some(Earlier::Second | Earlier::Third) => Ok(Vec::new(alloc)),
        _ => Ok(reads::amends_rows(conn)?),
    }
}

fn dates_in<S: Alter>(
    conn: &mut Connection<S>,
    form: Option<Earlier>,
) -> Result<Option<Dates>, OpenFault>
    ensures { ReadsOurs (tables_in form) S.Store conn.old conn.new result (λ dates db. SaysDates form dates db) Never }
{
    match form {
        Some(_) => Ok(None),
        None => Ok(Some(Dates::of(&reads::received_rows(conn)?))),
    }
}

fn read_beside<S: Alter>(
    alloc: Global,
    conn: &mut Connection<S>,
    form: Option<Earlier>,
) -> Result<Beside, OpenFault>
    ensures reads { ReadsOurs (tables_in form) S.Store conn.old conn.new result (λ beside db. SaysBeside form beside db)
        Never }
    ensures known { HasCleanDisk (state S.Store conn.new)
        → OnOk result (IsTrue (state S.Store conn.old).is_open → HasBeside form (state S.Store conn.old).now.schema) }
{
    let migrated = migrated_in(conn, form)?;
    let amends = amends_in(alloc, conn, form)?;
    let received = dates_in(conn, form)?;
    Ok(Beside {
        migrated,
        amends,
        received,
    })
}

/// How much a register holds: how many requests are kept, how many of them are registered, how many were kept before
/// there were problem details, and the catalogue of the filings.
#[derive(Debug, Drop)]
pub struct Counts {
    pub kept: u64,
    pub filings: u64,
    pub old_style: u64,
    pub catalogue: Catalogue,
}

/// The number in the one row of `migrated`, if it is at most that of the kept requests.
fn old_style_of(migrated: &[Row], kept: u64) -> Option<u64>
    ensures some { IfSome result (λ old_style. SaysOldStyle kept old_style migrated.now) }
    ensures none { result ≡ None → SaysNothing kept migrated.now }
{
    let [row] = migrated else {
        return None;
    };
    match number_at(row, migrated::LAST) {
        Some(old_style)
            if old_style <= kept && is_row(row, &[Cell::Int(1), Cell::Int(old_style as i64)]) =>
            Some(old_style),
        _ => None,
    }
}

/// How much a register holds with these totals, if the rows of the other tables fit them, and otherwise the row to
/// report.
fn counts_of(totals: Totals, beside: &Beside) -> Result<Counts, u64>
    ensures told { IfOk result (CountsIn totals beside.now) }
    ensures refused { IfErr result (IsDamagedIn totals.kept beside.now) }
{
    let old_style = match &beside.migrated {
        Some(rows) => match old_style_of(rows, totals.kept) {
            Some(old_style) => old_style,
            None => return Err(0),
        },
        // All are from before there were problem details.
        None => totals.kept,
    };
    if let Some(dates) = &beside.received {
        if let Some(row) = dates.first_undated(totals.kept) {
            return Err(row);
        }
    }
    Ok(Counts {
        kept: totals.kept,
        filings: totals.filings,
        old_style,
        catalogue: totals.catalogue,
    })
}

/// Reads how much a register in this form holds, and reports to `watch` how far it is. Nothing is written, whatever the
/// answer is.
pub(crate) fn read_in<S: Alter, W: Watch>(
    alloc: Global,
    conn: &mut Connection<S>,
    form: Option<Earlier>,
    watch: &mut W,
) -> Result<Counts, OpenFault>
    ensures { ReadsIn S.Store form conn.old conn.new result }
{
    let beside = read_beside(alloc, conn, form)?;
    let totals = count_by_walk(alloc, conn, &beside.amends, watch)?;
    match counts_of(totals, &beside) {
        Ok(counts) => Ok(counts),
        Err(row) => Err(OpenFault::Damaged { row }),
    }
}

/// Reads how much the register holds that the database is, and reports to `watch` how far it is. Nothing is written,
/// whatever the answer is. How the tables are declared is not tested.
pub fn read_register<S: Alter, W: Watch>(
    alloc: Global,
    conn: &mut Connection<S>,
    watch: &mut W,
) -> Result<Counts, OpenFault>
    requires { IsAtRest conn.old }
    ensures { ReadsRegister S.Store conn.old conn.new result }
{
    prove!(is_settled(conn));
    match read_form(conn)? {
        None => read_in(alloc, conn, None, watch),
        Some(_) => Err(OpenFault::NotOurs),
    }
}
