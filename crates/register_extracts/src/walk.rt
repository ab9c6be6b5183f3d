//! A register is read one request at a time, each with its report: what is read of the row of one kept request, and
//! which filing that is.

pub(crate) mod filing;
pub(crate) mod kept_report;
pub(crate) mod reads;
