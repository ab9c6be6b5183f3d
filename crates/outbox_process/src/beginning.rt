//! Begins an outbox over a database: it is made there, is there, or is upgraded. This is written over any store, since
//! each function that names a store in files and calls such code costs much to prove.

ghost use Rattle.std.specs.Prelude.{◌≡◌, ◌↔◌, false, IsTrue, IfOk, IfErr};
ghost use Rattle.table_rows.specs.Standing.{IsAtRest};
ghost use Rattle.table_rows.specs.Tables.{no_schema};
ghost use Rattle.outbox_core.specs.Refusals.{GivesBackMigrating};
ghost use Rattle.outbox_process.specs.Beginning.{FindsOutbox, MakesOutbox, MigratesEarlier, MigratesOutbox};
ghost use Rattle.outbox_process.specs.Beginning.{BeginsOutbox};
ghost use Rattle.outbox_process.specs.Refusals.{RefusesFinding, RefusesMaking, RefusesMigrating};
ghost use Rattle.outbox_process.specs.Refusals.{RefusesOutbox};
ghost use Rattle.outbox_process.specs.declared.fault.Why.TheVariants.{Migrate};

use crate::fault::{NotOpened, Why};
use database_places::held_in;
use outbox_core::{Outbox, OutboxFault};
use sqlite::{Alter, Connection};
use sqlite_schema::schema::Schema;
use std::alloc::Global;

/// How an outbox is opened.
#[derive(Clone, Copy)]
pub enum Beginning<'a> {
    /// It is there.
    Found,
    /// It is made for this filer, in a database without tables. The files are made if they are missing.
    Made { filer: &'a str },
    /// It is there in an earlier version, and is upgraded. No opening does that, since no way leads back.
    Migrated,
}

/// Whether nothing is declared.
fn is_empty(schema: &Schema) -> bool
    ensures { IsTrue result ↔ (schema.now ≡ no_schema) }
{
    // A file with a view and no table belongs to somebody too.
    schema.tables.is_empty() && schema.indexes.is_empty() && schema.views.is_empty()
}

/// The outbox that lies in this database.
fn find_outbox<S: Alter + Drop>(
    alloc: Global,
    conn: Connection<S>,
) -> Result<Outbox<S>, (Why, Connection<S>)>
    requires { IsAtRest conn }
    ensures found { IfOk result (FindsOutbox S.Store conn) }
    ensures up { IfOk result (λ outbox. outbox.has_failed ≡ false) }
    ensures refused { IfErr result (λ refusal. RefusesFinding S.Store conn refusal.1 refusal.0) }
{
    match Outbox::open_or_back(alloc, conn) {
        Ok(outbox) => Ok(outbox),
        Err((fault, back)) => Err((Why::Open(fault), back)),
    }
}

/// The outbox of this filer that is made in this database, if nothing is in it.
fn make_outbox<S: Alter + Drop>(
    alloc: Global,
    conn: Connection<S>,
    filer: &str,
) -> Result<Outbox<S>, (Why, Connection<S>)>
    requires { IsAtRest conn }
    ensures made { IfOk result (MakesOutbox S.Store filer.now conn) }
    ensures up { IfOk result (λ outbox. outbox.has_failed ≡ false) }
    ensures refused { IfErr result (λ refusal. RefusesMaking S.Store filer.now conn refusal.1 refusal.0) }
{
    if !is_empty(conn.schema()) {
        return Err((Why::Taken, conn));
    }
    match Outbox::create_or_back(alloc, conn, filer) {
        Ok(outbox) => Ok(outbox),
        Err((fault, back)) => Err((Why::Create(fault), back)),
    }
}

/// The outbox of an earlier version in this database, upgraded.
fn migrate_earlier<S: Alter + Drop>(
    alloc: Global,
    conn: Connection<S>,
) -> Result<Outbox<S>, (Why, Connection<S>)>
    requires { IsAtRest conn }
    ensures migrated { IfOk result (MigratesEarlier S.Store conn) }
    ensures up { IfOk result (λ outbox. outbox.has_failed ≡ false) }
    ensures refused { IfErr result (λ refusal. (fault : OutboxFault) × (refusal.0 ≡ Migrate fault)
        × GivesBackMigrating S.Store conn fault refusal.1) }
{
    match Outbox::migrate_or_back(alloc, conn) {
        Ok(outbox) => Ok(outbox),
        Err((fault, back)) => Err((Why::Migrate(fault), back)),
    }
}

/// The outbox of an earlier version in this database, upgraded, unless it has this version already.
fn migrate_outbox<S: Alter + Drop>(
    alloc: Global,
    conn: Connection<S>,
) -> Result<Outbox<S>, (Why, Connection<S>)>
    requires { IsAtRest conn }
    ensures migrated { IfOk result (MigratesOutbox S.Store conn) }
    ensures up { IfOk result (λ outbox. outbox.has_failed ≡ false) }
    ensures refused { IfErr result (λ refusal. RefusesMigrating S.Store conn refusal.1 refusal.0) }
{
    // Opening reads it whole: by its tables alone it may look like an outbox of this version.
    match Outbox::open_or_back(alloc, conn) {
        Ok(outbox) => Err((Why::IsCurrent, outbox.into_conn())),
        Err((OutboxFault::NotOurs, back)) => migrate_earlier(alloc, back),
        Err((fault, back)) => Err((Why::Migrate(fault), back)),
    }
}

/// The outbox that begins like this over this database. A refusal says what the database holds, and gives the
/// connection back, so that a clause can say of it what was committed.
pub(crate) fn begin<S: Alter + Drop>(
    alloc: Global,
    conn: Connection<S>,
    beginning: Beginning<'_>,
) -> Result<Outbox<S>, (NotOpened, Connection<S>)>
    requires { IsAtRest conn }
    ensures begins { IfOk result (BeginsOutbox S.Store beginning.entry conn) }
    ensures up { IfOk result (λ outbox. outbox.has_failed ≡ false) }
    ensures refused { IfErr result (λ refusal. RefusesOutbox S.Store beginning.entry conn refusal.1 refusal.0.why) }
{
    let begun = match beginning {
        Beginning::Found => find_outbox(alloc, conn),
        Beginning::Made { filer } => make_outbox(alloc, conn, filer),
        Beginning::Migrated => migrate_outbox(alloc, conn),
    };
    match begun {
        Ok(outbox) => Ok(outbox),
        Err((why, back)) => {
            let holding = held_in(&back);
            Err((NotOpened { why, holding }, back))
        }
    }
}
