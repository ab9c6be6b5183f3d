//! The limits of a register that several crates share.

/// The greatest number of a filing: a column of a table holds no greater one.
pub const MAX_FILING_NUMBER: u64 = (1 << 63) - 1;

/// The most keys that a register may keep.
pub const MAX_KEPT: u64 = 1 << 62;
