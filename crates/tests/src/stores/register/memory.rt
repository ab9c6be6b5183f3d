//! The life of a register, with each call made again that was refused because memory ran out: what was kept stays, and
//! the second answer is that of ample memory. Run it with each allocation refused too, one in a run.

use super::calls::{
    create, fact_count, filing_count, has_filings, intake_over, open, replaceable, request_count,
};
use super::{Request, holds, submit};
use crate::databases::Fresh;
use example_texts::REPORT;
use filing_model::FilingRow;
use intake_core::{Intake, Unavailable};
use register_store::{CreateFault, OpenFault, Store, StoreFault};
use sqlite::{Alter, MemStore};
use std::alloc::Global;

/// A report, one that replaces it, and one that comes too late to replace it.
static REQUESTS: [Request; 3] = [
    ("k-1", false, REPORT, 1),
    ("k-2", true, REPORT, 2),
    ("k-3", true, REPORT, 0),
];

/// Their filings.
static FILINGS: [FilingRow; 2] = [
    FilingRow {
        number: 1,
        facts: 1,
        replaces: None,
        replaced_by: Some(2),
    },
    FilingRow {
        number: 2,
        facts: 1,
        replaces: Some(1),
        replaced_by: None,
    },
];

/// What making a new register answers.
fn created<S: Fresh>(alloc: Global) -> Result<Store<S>, CreateFault> {
    match S::fresh(alloc) {
        Some(conn) => create(alloc, conn),
        None => Err(CreateFault::Memory),
    }
}

/// What making a register answers, tried again if memory ran out: a refusal gives the database up, so another one is
/// made then.
fn created_again<S: Fresh>(alloc: Global) -> Result<Store<S>, CreateFault> {
    match created(alloc) {
        Err(CreateFault::Memory) => created(alloc),
        answer => answer,
    }
}

/// Whether the register has these requests and no others.
fn holds_again<S: Alter>(
    alloc: Global,
    store: &mut Store<S>,
    requests: &[Request],
) -> Result<bool, StoreFault> {
    match holds(alloc, store, requests) {
        Err(StoreFault::Memory) => holds(alloc, store, requests),
        answer => answer,
    }
}

/// What an intake answers to a request, at once or, if memory was refused, to the same request again.
fn submit_again<S: Alter>(
    alloc: Global,
    intake: &mut Intake<S>,
    request: Request,
) -> Result<(u64, bool), Unavailable> {
    match submit(alloc, intake, request) {
        Err(Unavailable::Memory) => submit(alloc, intake, request),
        answer => answer,
    }
}

/// A register that was asked for each request; `None` if one has another answer than its own, or is called a
/// repeat, as one would be that was kept if memory was refused.
fn kept<S: Fresh>(alloc: Global, requests: &[Request]) -> Option<Store<S>> {
    let mut intake = intake_over(alloc, created_again(alloc).ok()?);
    for &request in requests {
        if submit_again(alloc, &mut intake, request) != Ok((request.3, false)) {
            return None;
        }
    }
    Some(intake.into_store())
}

/// What an opening of a register with the requests answers.
fn opened<S: Fresh>(alloc: Global) -> Result<Store<S>, OpenFault> {
    match kept(alloc, &REQUESTS) {
        Some(store) => open(alloc, store.into_conn()),
        None => Err(OpenFault::NotOurs),
    }
}

/// What an opening answers, tried again if memory ran out: a refusal gives the database up, so another one is made
/// then.
fn opened_again<S: Fresh>(alloc: Global) -> Result<Store<S>, OpenFault> {
    match opened(alloc) {
        Err(OpenFault::Memory) => opened(alloc),
        answer => answer,
    }
}

/// Whether each list has what was filed.
fn lists_all<S: Alter>(store: &mut Store<S>) -> Result<bool, StoreFault> {
    Ok(
        request_count(store)? == REQUESTS.len()
            && filing_count(store)? == FILINGS.len()
            && fact_count(store, 1)? == 1,
    )
}

/// Whether the register answers that the second filing replaces the first, and may be replaced itself.
fn is_replaced<S: Alter>(store: &mut Store<S>) -> Result<bool, StoreFault> {
    Ok(has_filings(store, &FILINGS)? && !replaceable(store, 1)? && replaceable(store, 2)?)
}

fn tells_all<S: Alter>(store: &mut Store<S>) -> Result<bool, StoreFault> {
    Ok(lists_all(store)? && is_replaced(store)?)
}

fn tells_all_again<S: Alter>(store: &mut Store<S>) -> Result<bool, StoreFault> {
    match tells_all(store) {
        Err(StoreFault::Memory) => tells_all(store),
        answer => answer,
    }
}

/// Whether the register that is opened has the reports.
fn lives<S: Fresh>(alloc: Global) -> Option<bool> {
    let mut store: Store<S> = opened_again(alloc).ok()?;
    let is_kept = matches!(holds_again(alloc, &mut store, &REQUESTS), Ok(true));
    Some(is_kept && matches!(tells_all_again(&mut store), Ok(true)))
}

#[test]
fn refused_memory_changes_nothing(rt: HostRuntime) {
    assert_eq!(rt; lives::<MemStore>(rt.alloc()), Some(true));
}
