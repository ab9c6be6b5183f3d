//! Calls of a register, each in a function of its own that has no clause, so that a test that makes several does not
//! carry their clauses.

use crate::databases::ready;
use crate::stores::targets::first_if;
use filing_model::{Answer, FilingRow};
use intake_core::{Intake, Unavailable};
use key_string::{KeyText, is_filer};
use register_store::{CreateFault, OpenFault, Store, StoreFault, migrate_register};
use sqlite::{Alter, Connection};
use std::alloc::Global;

/// What `create` answers.
pub fn create<S: Alter + Drop>(
    alloc: Global,
    conn: Connection<S>,
) -> Result<Store<S>, CreateFault> {
    match ready(conn) {
        Some(conn) => Store::create(alloc, conn),
        None => Err(CreateFault::Disk),
    }
}

/// What `open` answers.
pub fn open<S: Alter + Drop>(alloc: Global, conn: Connection<S>) -> Result<Store<S>, OpenFault> {
    match ready(conn) {
        Some(conn) => Store::open(alloc, conn),
        None => Err(OpenFault::Disk),
    }
}

/// What `migrate` answers.
pub fn migrate<S: Alter + Drop>(alloc: Global, conn: Connection<S>) -> Result<Store<S>, OpenFault> {
    match ready(conn) {
        Some(conn) => Store::migrate(alloc, conn),
        None => Err(OpenFault::Disk),
    }
}

/// The connection after a migration, and how that is refused, if it is.
pub fn migrated<S: Alter + Drop>(
    alloc: Global,
    conn: Connection<S>,
) -> Option<(Connection<S>, Option<OpenFault>)> {
    let mut conn = ready(conn)?;
    let fault = migrate_register(alloc, &mut conn).err();
    Some((conn, fault))
}

/// An intake over a store, which keeps ten requests at most.
pub fn intake_over<S: Alter>(alloc: Global, store: Store<S>) -> Intake<S> {
    Intake::new(alloc, store, 10)
}

/// What `submit` answers for a short report of ACME under a key, which replaces filing 1 or none.
pub fn submit<S: Alter>(
    intake: &mut Intake<S>,
    replaces: bool,
    key: &KeyText,
    body: &[u8],
) -> Result<Answer, Unavailable> {
    let filer = "ACME";
    if !is_filer(filer) || body.len() > 1000 {
        return Err(Unavailable::Down);
    }
    intake.submit(filer, first_if(replaces), key, body)
}

/// What `replaceable` answers for ACME.
pub fn replaceable<S: Alter>(store: &mut Store<S>, number: u64) -> Result<bool, StoreFault> {
    store.replaceable("ACME", number)
}

/// How many requests are listed.
pub fn request_count<S: Alter>(store: &mut Store<S>) -> Result<usize, StoreFault> {
    Ok(store.requests()?.len())
}

/// How many filings are listed.
pub fn filing_count<S: Alter>(store: &mut Store<S>) -> Result<usize, StoreFault> {
    Ok(store.all_filings()?.len())
}

/// Whether these are the filings of ACME.
pub fn has_filings<S: Alter>(
    store: &mut Store<S>,
    filings: &[FilingRow],
) -> Result<bool, StoreFault> {
    Ok(store.filings("ACME")?.as_slice() == filings)
}

/// How many facts a filing has, 0 if there is no filing.
pub fn fact_count<S: Alter>(store: &mut Store<S>, number: u64) -> Result<usize, StoreFault> {
    match store.facts(number)? {
        Some(facts) => Ok(facts.len()),
        None => Ok(0),
    }
}
