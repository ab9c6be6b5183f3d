//! A filing as it is listed.

/// A filing in a filer's list: its number, which counts from 1, how many facts it has, and the numbers of the filing
/// that it replaces and of the one that replaces it.
#[derive(Clone, Copy, Debug, PartialEq, Eq)]
pub struct FilingRow {
    pub number: u64,
    pub facts: usize,
    pub replaces: Option<u64>,
    pub replaced_by: Option<u64>,
}
