//! The columns of the three tables, by their places in a whole row.

/// Those of `outbox_meta`.
pub mod meta {
    pub const ID: usize = 0;

    pub const KIND: usize = 1;

    pub const FORM: usize = 2;

    pub const FILER: usize = 3;
}

/// Those of `entry`.
pub mod entry {
    pub const ID: usize = 0;

    pub const KEY: usize = 1;

    pub const BODY: usize = 2;

    pub const STATE: usize = 3;

    pub const NUMBER: usize = 4;
}

/// Those of `target`.
pub mod target {
    pub const ID: usize = 0;

    pub const NUMBER: usize = 1;
}
