//! Why a connection is over.

/// Why a connection is over.
#[derive(Clone, Copy, Debug, PartialEq, Eq)]
pub enum Why {
    /// Nothing can follow, and nothing is owed.
    Done,
    /// A write failed.
    Broken,
    /// There was no memory for what comes next.
    NoMemory,
    /// Its peer was waited for as long as the patience is.
    Late,
}
