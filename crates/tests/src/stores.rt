//! What is kept in tables: registers and outboxes, in memory and on disks that stop.

pub mod outbox;
mod register;
mod stops;
mod targets;
