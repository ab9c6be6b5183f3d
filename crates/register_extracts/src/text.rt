//! How a moment is written.

ghost use Rattle.std.specs.Prelude.{◌≡◌, ◌*◌, pos, string_bytes, IfOk};
ghost use Rattle.jiff_core.specs.DateTime.{civil_nanos};
ghost use Rattle.register_extracts.specs.Text.{moment_text};

use jiff::SignedDuration;
use jiff::civil::{DateTime, datetime};
use jiff::fmt::temporal::DateTimePrinter;
use register_rows::Moment;
use std::alloc::{AllocError, Global};

/// What a clock in UTC shows at the moment.
fn shown_at(moment: Moment) -> DateTime
    ensures { civil_nanos result ≡ pos (moment.milliseconds * 1_000_000) }
{
    datetime(1970, 1, 1, 0, 0, 0, 0) + SignedDuration::from_millis(moment.milliseconds() as i64)
}

/// The moment in UTC, with milliseconds (RFC 3339, section 5.6).
pub fn moment_text(alloc: Global, moment: Moment) -> Result<String, AllocError>
    ensures { IfOk result (λ text. string_bytes text ≡ moment_text moment.milliseconds) }
{
    let printer = DateTimePrinter::new().precision(Some(3));
    let shown = printer.datetime_text(shown_at(moment).to_plain());
    let text = format!(in alloc; "{shown}Z")?;
    Ok(text)
}
