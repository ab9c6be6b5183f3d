//! How rows read as requests, filings and facts.

pub(crate) mod completed;
pub(crate) mod facts;
