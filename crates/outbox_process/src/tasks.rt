//! What `outbox` does with an open outbox: the calls that a task makes, the connections that are made for them, and the
//! lines that are printed. No file and no port of the system is known here.

pub(crate) mod answering;
pub(crate) mod asking;
pub(crate) mod dial;
pub(crate) mod lines;
pub(crate) mod listing;
pub(crate) mod looking;
pub(crate) mod memory;
pub(crate) mod putting;
pub(crate) mod rounds;
pub(crate) mod sending;
pub(crate) mod showing;
