//! The refusals of `sqlite`, by their cause.

use sqlite::{Error, ErrorCode};

/// Why `sqlite` refused a call.
#[derive(Clone, Copy, Debug, PartialEq, Eq)]
pub enum Cause {
    /// Out of memory. What was written in the transaction is undone.
    Memory,
    /// The disk failed, is full or returned something else than was written, now or earlier.
    Disk,
    /// Any other cause, which lies in the statement or in what the database holds.
    Other,
}

impl From<Error> for Cause {
    ghost use Rattle.std.specs.Prelude.{◌≡◌};
    ghost use Rattle.table_rows.specs.Causes.{cause_of};

    ghost from_gives = { λ error cause. cause ≡ cause_of error };

    fn from(error: Error) -> Cause {
        match error {
            Error::SqliteFailure(ErrorCode::OutOfMemory) => Cause::Memory,
            Error::SqliteFailure(
                ErrorCode::SystemIoFailure
                | ErrorCode::DatabaseCorrupt
                | ErrorCode::DiskFull
                | ErrorCode::Closed,
            ) => Cause::Disk,
            _ => Cause::Other,
        }
    }
}
