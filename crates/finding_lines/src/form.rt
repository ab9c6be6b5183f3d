//! How findings are written.

/// How findings are written, a line for each.
#[derive(Clone, Copy, Debug, PartialEq, Eq)]
pub enum Form {
    /// `FILE:LINE:COLUMN: CODE: MESSAGE (PLACE)`, for people.
    Sentences,
    /// A JSON object, for programs.
    Objects,
}
