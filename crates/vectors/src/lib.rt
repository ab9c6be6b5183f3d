//! The worked examples of the protocol as vectors: which of them pass. What may live here: the examples as data,
//! written out by hand, their numbers, what runs and compares them over the public calls, and the report on a run.
#![tactic(auto)]

mod amendments;
mod calls;
#[cfg(test)]
mod conformance;
mod connection;
mod examples;
mod files;
mod history;
mod keys;
mod migration;
mod outbox;
mod outbox_migration;
mod outcome;
mod refusal;
mod register;
mod replies;
mod report;
mod reports;
mod schedules;
mod visits;

pub use report::{NUMBERS, VectorReport, run, run_all};
