//! Why no outbox is made, opened or migrated.

use std::alloc::AllocError;
use table_rows::Cause;

/// Why an outbox was not made or not opened. The database is as it was.
#[derive(Clone, Copy, Debug, PartialEq, Eq, thiserror::Error)]
pub enum OutboxFault {
    /// The text is no code of a filer.
    #[error("the filer is no filer code")]
    BadFiler,
    /// A table, an index or a view has the name of one of our tables.
    #[error("a table of the outbox's name is there")]
    Taken,
    /// The database is no outbox in the form that is read here.
    #[error("the database is no outbox")]
    NotOurs,
    /// The entry in this row, counted from 1, or its target is not as an outbox keeps it. The row is 0 if the entries
    /// or the targets cannot be read, or if a target belongs to no entry.
    #[error("row {row} of the outbox is damaged")]
    Damaged { row: u64 },
    /// No memory was left.
    #[error("out of memory")]
    Memory,
    /// The database refused for another cause.
    #[error("the database failed")]
    Disk,
}

impl From<sqlite::Error> for OutboxFault {
    ghost use Rattle.std.specs.Prelude.{◌≡◌};
    ghost use Rattle.outbox_tables.specs.Faults.{outbox_fault};

    ghost from_gives = { λ error fault. fault ≡ outbox_fault error };

    fn from(error: sqlite::Error) -> OutboxFault {
        match Cause::from(error) {
            Cause::Memory => OutboxFault::Memory,
            Cause::Disk | Cause::Other => OutboxFault::Disk,
        }
    }
}

impl From<AllocError> for OutboxFault {
    ghost use Rattle.std.specs.Prelude.{◌≡◌};
    ghost use Rattle.outbox_tables.specs.declared.fault.OutboxFault.TheVariants.{Memory};

    ghost from_gives = { λ _ fault. fault ≡ Memory };

    fn from(_error: AllocError) -> OutboxFault {
        OutboxFault::Memory
    }
}
