//! How far an opening is.

/// Follows an opening, which takes long if many requests are kept. It decides nothing.
pub trait Watch {
    /// So many requests of all the kept ones were found sound.
    fn passed(&mut self, requests: u64, all: u64);
}

/// Nobody follows the opening.
#[derive(Clone, Copy)]
pub struct Unwatched;

impl Watch for Unwatched {
    fn passed(&mut self, _requests: u64, _all: u64) {}
}
