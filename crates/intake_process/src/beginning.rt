//! Begins an intake over a database: its register is made there, or is there. This is written over any store, since
//! each function that names a store in files and calls such code costs much to prove.

ghost use Rattle.std.specs.Prelude.{◌≡◌, ◌≤◌, ◌^◌, ◌↔◌, true, false, IsTrue, IfOk, IfErr};
ghost use Rattle.table_rows.specs.Standing.{IsAtRest};
ghost use Rattle.table_rows.specs.Tables.{no_schema};
ghost use Rattle.database_places.specs.Opening.{is_found};
ghost use Rattle.intake_core.specs.Held.{store_of, limit_of, has_stopped};
ghost use Rattle.intake_process.specs.Beginning.{FindsIntake, MakesIntake, IsNotBegun};

use database_places::Opening;
use intake_core::Intake;
use register_extracts::Why;
use register_store::Store;
use sqlite::{Alter, Connection};
use sqlite_schema::schema::Schema;
use std::alloc::Global;

/// How much a register holds.
#[derive(Clone, Copy, Debug, PartialEq, Eq)]
pub struct Totals {
    /// How many requests are kept.
    pub kept: u64,
    /// How many of them are filings.
    pub filings: u64,
}

fn totals_of<S: Alter>(register: &Store<S>) -> Totals
    ensures { (result.kept ≡ register.now.kept) × (result.filings ≡ register.now.filings) }
{
    Totals {
        kept: register.kept_count().unwrap_or(0),
        filings: register.filing_count().unwrap_or(0),
    }
}

/// Whether nothing is declared.
fn is_empty(schema: &Schema) -> bool
    ensures { IsTrue result ↔ (schema.now ≡ no_schema) }
{
    // A file with a view and no table belongs to somebody too.
    schema.tables.is_empty() && schema.indexes.is_empty() && schema.views.is_empty()
}

/// The intake over the register that lies in this database.
fn find_intake<S: Alter + Drop>(
    alloc: Global,
    conn: Connection<S>,
    limit: u64,
) -> Result<(Intake<S>, Totals), (Why, Connection<S>)>
    requires limit { limit ≤ 2 ^ 62 }
    requires rest { IsAtRest conn }
    ensures found { IfOk result (λ begun. FindsIntake S.Store conn limit begun.0 begun.1) }
    ensures limited { IfOk result (λ begun. limit_of begun.0 ≡ limit) }
    ensures up { IfOk result (λ begun. has_stopped begun.0 ≡ false) }
    ensures refused { IfErr result (λ refusal. IsNotBegun S.Store true conn refusal.0 refusal.1) }
{
    match Store::open_or_back(alloc, conn) {
        Ok(register) => {
            let totals = totals_of(&register);
            Ok((Intake::new(alloc, register, limit), totals))
        }
        Err((fault, back)) => Err((Why::Open(fault), back)),
    }
}

/// The intake over a register that is made in this database, if nothing is in it.
fn make_intake<S: Alter + Drop>(
    alloc: Global,
    conn: Connection<S>,
    limit: u64,
) -> Result<(Intake<S>, Totals), (Why, Connection<S>)>
    requires limit { limit ≤ 2 ^ 62 }
    requires rest { IsAtRest conn }
    ensures made { IfOk result (λ begun. MakesIntake S.Store conn limit begun.0 begun.1) }
    ensures limited { IfOk result (λ begun. limit_of begun.0 ≡ limit) }
    ensures up { IfOk result (λ begun. has_stopped begun.0 ≡ false) }
    ensures refused { IfErr result (λ refusal. IsNotBegun S.Store false conn refusal.0 refusal.1) }
{
    if !is_empty(conn.schema()) {
        return Err((Why::Taken, conn));
    }
    match Store::create_or_back(alloc, conn) {
        Ok(register) => {
            let totals = totals_of(&register);
            Ok((Intake::new(alloc, register, limit), totals))
        }
        Err((fault, back)) => Err((Why::Create(fault), back)),
    }
}

/// The intake over the register that is made in this database or lies there, which keeps at most `limit` keys. A
/// refusal gives the connection back, so that a clause can say of it what was committed.
pub(crate) fn begin<S: Alter + Drop>(
    alloc: Global,
    conn: Connection<S>,
    opening: Opening,
    limit: u64,
) -> Result<(Intake<S>, Totals), (Why, Connection<S>)>
    requires limit { limit ≤ 2 ^ 62 }
    requires rest { IsAtRest conn }
    ensures found { is_found opening ≡ true
        → IfOk result (λ begun. FindsIntake S.Store conn limit begun.0 begun.1) }
    ensures made { is_found opening ≡ false → IfOk result (λ begun. MakesIntake S.Store conn limit begun.0 begun.1) }
    ensures limited { IfOk result (λ begun. limit_of begun.0 ≡ limit) }
    ensures up { IfOk result (λ begun. has_stopped begun.0 ≡ false) }
    ensures refused { IfErr result (λ refusal. IsNotBegun S.Store (is_found opening) conn refusal.0 refusal.1) }
{
    match opening {
        Opening::Found(_) => find_intake(alloc, conn, limit),
        Opening::Made(_) => make_intake(alloc, conn, limit),
    }
}

/// The connection of an intake's register, and how many requests it keeps.
pub(crate) fn parted<S: Alter>(intake: Intake<S>) -> (u64, Connection<S>)
    ensures { (result.0 ≡ (store_of intake).kept) × (result.1 ≡ (store_of intake).conn) }
{
    let register = intake.into_store();
    let kept = register.kept_count().unwrap_or(0);
    (kept, register.into_conn())
}
