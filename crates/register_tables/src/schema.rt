//! The tables of a register: their names and how they are made.

pub(crate) mod create;
pub(crate) mod names;
