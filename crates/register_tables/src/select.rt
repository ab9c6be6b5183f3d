//! What is read of a database that is to be opened: tables whole, and a kept request's rows.

pub(crate) mod picks;
pub(crate) mod reads;
