//! Which numbers a report may name as the filing that it replaces.

ghost use Rattle.std.specs.Prelude.{◌↔◌, IsTrue};
ghost use Rattle.http_messages.specs.Posting.{IsTarget};

use crate::limits::MAX_FILING_NUMBER;

/// Whether there is no number, or one that a filing may have.
pub fn is_target(target: Option<u64>) -> bool
    ensures { IsTrue result ↔ IsTarget target }
{
    match target {
        Some(number) => 1 <= number && number <= MAX_FILING_NUMBER,
        None => true,
    }
}
