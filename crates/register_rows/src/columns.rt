//! The columns of a register's tables, by their places in a whole row.

/// Those of `kept`.
pub mod kept {
    pub const FILER: usize = 1;

    pub const KEY: usize = 2;

    pub const BODY: usize = 3;

    pub const NUMBER: usize = 4;
}

/// Those of `amends`.
pub(crate) mod amends {
    pub(crate) const SEQ: usize = 0;

    pub(crate) const TARGET: usize = 1;
}

/// Those of `migrated`.
pub mod migrated {
    pub const LAST: usize = 1;
}

/// Those of `received`.
pub mod received {
    pub const SEQ: usize = 0;

    pub const MOMENT: usize = 1;
}
