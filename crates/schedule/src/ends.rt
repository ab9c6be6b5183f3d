//! What the ends of a world need: disks that give back what was written, how a world reports the refusals of an end,
//! and how the process of an outbox is made in a drawer, asked, closed and opened again.

pub(crate) mod durable;
pub(crate) mod faithful;
pub(crate) mod fault;
pub(crate) mod honest;
pub(crate) mod keys;
pub(crate) mod opening;
pub(crate) mod outbox_end;
pub(crate) mod outboxes;
