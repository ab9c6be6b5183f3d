//! Registers, from outside.

use crate::stores::targets::first_if;
use calls::{create, intake_over};
use example_texts::REPORT;
use filing_model::Answer;
use intake_core::{Intake, Unavailable};
use key_string::KeyText;
use register_store::{KeptRow, Outcome, Store, StoreFault};
use sqlite::{Alter, Connection};
use std::alloc::Global;

mod calls;
mod damage;
mod memory;
mod migration;
mod stops;

/// A request of ACME: its key, whether it replaces filing 1, its body, and the number of its filing, 0 if it is
/// refused.
type Request = (&'static str, bool, &'static str, u64);

/// A request that is registered.
static ONE: [Request; 1] = [("k-1", false, REPORT, 1)];

/// The number of the filing that is answered, 0 if the answer is that there is none, and whether the request came
/// before.
fn numbered(answer: Result<Answer, Unavailable>) -> Result<(u64, bool), Unavailable> {
    match answer {
        Ok(Answer::Registered { number, repeat }) => Ok((number, repeat)),
        Ok(Answer::Refused { repeat, .. }) => Ok((0, repeat)),
        Ok(Answer::KeyReused { .. }) => Ok((0, true)),
        Err(fault) => Err(fault),
    }
}

/// What an intake answers to a request.
fn submit<S: Alter>(
    alloc: Global,
    intake: &mut Intake<S>,
    (key, replaces, body, _): Request,
) -> Result<(u64, bool), Unavailable> {
    match KeyText::new(alloc, key) {
        Ok(key) => numbered(calls::submit(intake, replaces, &key, body.as_bytes())),
        Err(_) => Err(Unavailable::Memory),
    }
}

/// The number of an outcome, or 0.
fn number_of(outcome: &Outcome) -> u64 {
    match outcome {
        Outcome::Registered(number) => *number,
        Outcome::Refused(_) => 0,
    }
}

fn is_request(row: &KeptRow, (_, replaces, body, number): Request) -> bool {
    row.target == first_if(replaces)
        && row.body.as_slice() == body.as_bytes()
        && number_of(&row.outcome) == number
}

/// Whether the request is kept under a key of ACME, with its answer.
fn is_kept<S: Alter>(
    store: &mut Store<S>,
    key: &KeyText,
    request: Request,
) -> Result<bool, StoreFault> {
    match store.find("ACME", key)? {
        Some(row) => Ok(is_request(&row, request)),
        None => Ok(false),
    }
}

/// Whether the request is kept under its own key, with its answer.
fn has_request<S: Alter>(
    alloc: Global,
    store: &mut Store<S>,
    request: Request,
) -> Result<bool, StoreFault> {
    match KeyText::new(alloc, request.0) {
        Ok(key) => is_kept(store, &key, request),
        Err(_) => Err(StoreFault::Memory),
    }
}

/// Whether the register has these requests and no others.
fn holds<S: Alter>(
    alloc: Global,
    store: &mut Store<S>,
    requests: &[Request],
) -> Result<bool, StoreFault> {
    let mut has_all = store.kept_count()? == requests.len() as u64;
    for &request in requests {
        has_all = has_all && has_request(alloc, store, request)?;
    }
    Ok(has_all)
}

/// Asks an intake for each request, until one gets no answer.
fn submit_all<S: Alter>(
    alloc: Global,
    intake: &mut Intake<S>,
    requests: &[Request],
) -> Result<(), Unavailable> {
    for &request in requests {
        submit(alloc, intake, request)?;
    }
    Ok(())
}

/// A new register with these requests; `None` if one gets no answer.
fn made<S: Alter + Drop>(
    alloc: Global,
    conn: Connection<S>,
    requests: &[Request],
) -> Option<Connection<S>> {
    let mut intake = intake_over(alloc, create(alloc, conn).ok()?);
    submit_all(alloc, &mut intake, requests).ok()?;
    Some(intake.into_store().into_conn())
}
