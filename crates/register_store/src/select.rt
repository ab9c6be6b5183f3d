//! What is read of a register that is open: requests, their moments, filings, and whether a filing
//! may be replaced.

pub(crate) mod catalogued;
pub(crate) mod found;
pub(crate) mod lists;
pub(crate) mod moments;
pub(crate) mod reads;
pub(crate) mod replaceable;
