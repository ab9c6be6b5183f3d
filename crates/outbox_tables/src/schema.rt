//! The tables of an outbox: how they are made.

pub(crate) mod create;
