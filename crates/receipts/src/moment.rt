//! The moment of a receipt.

ghost use Rattle.std.specs.Prelude.{string_bytes, IfOk};
ghost use Rattle.receipts.specs.Moment.{IsMomentText};

use jiff::Timestamp;
use jiff::tz::Offset;
use std::alloc::{AllocError, Global};

/// The moment in UTC (RFC 3339, section 5.6).
pub(crate) fn moment_text(alloc: Global, moment: Timestamp) -> Result<String, AllocError>
    ensures { IfOk result (λ text. IsMomentText moment (string_bytes text)) }
{
    let shown = Offset::UTC.to_datetime(moment);
    let text = format!(in alloc; "{shown}Z")?;
    Ok(text)
}
