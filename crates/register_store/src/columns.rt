//! The columns of what is read of some rows, by their places.

/// Those of a kept row without its filer and key.
pub(crate) mod found {
    pub(crate) const SEQ: usize = 0;

    pub(crate) const BODY: usize = 1;

    pub(crate) const NUMBER: usize = 2;
}

/// Those of a finding of a request.
pub(crate) mod finding {
    pub(crate) const CODE: usize = 0;

    pub(crate) const PLACE: usize = 1;
}

/// Those of a fact of a filing.
pub(crate) mod fact {
    pub(crate) const ID: usize = 0;

    pub(crate) const CONCEPT: usize = 1;

    pub(crate) const DIMENSIONS: usize = 2;

    pub(crate) const VALUE: usize = 3;

    pub(crate) const DECIMALS: usize = 4;
}
