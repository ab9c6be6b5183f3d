//! The columns of what is read of an entry without its key and its body, by their places.

/// Those of the state of one entry.
pub(crate) mod state {
    pub(crate) const CODE: usize = 0;

    pub(crate) const NUMBER: usize = 1;
}

/// Those of the states of all entries.
pub(crate) mod states {
    pub(crate) const ID: usize = 0;

    pub(crate) const CODE: usize = 1;

    pub(crate) const NUMBER: usize = 2;
}
