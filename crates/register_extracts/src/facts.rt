//! Facts as records of CSV and as lines of JSON: what a record of a fact holds, and how it is written. Where the facts
//! come from is not known here.

pub(crate) mod aspects;
pub(crate) mod field;
pub mod laws;
pub(crate) mod others;
pub(crate) mod record;
