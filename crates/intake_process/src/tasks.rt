//! What `intake` does with a register and prints of it: each task is one call. No file, no port and no words of a
//! command line are known here.

pub(crate) mod bodies;
pub(crate) mod checking;
pub(crate) mod dating;
pub(crate) mod digesting;
pub(crate) mod errand;
pub(crate) mod listing;
pub(crate) mod migrating;
pub(crate) mod running;
pub(crate) mod showing;
pub(crate) mod text;
