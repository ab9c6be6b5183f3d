//! Why no register is made, opened or migrated.

use std::alloc::AllocError;
use table_rows::Cause;

/// Why no register was made. The database is as it was.
#[derive(Clone, Copy, Debug, PartialEq, Eq, thiserror::Error)]
pub enum CreateFault {
    /// A table, an index or a view has the name of one of our tables.
    #[error("a table of the register's name is there")]
    Taken,
    /// No memory was left.
    #[error("out of memory")]
    Memory,
    /// The database refused for another cause.
    #[error("the database failed")]
    Disk,
}

/// Why a register was not opened or not migrated. The rows are as they were.
#[derive(Clone, Copy, Debug, PartialEq, Eq, thiserror::Error)]
pub enum OpenFault {
    /// The database is no register in a form that is read here, or the name of a table that a migration is to make is
    /// in use.
    #[error("not a register")]
    NotOurs,
    /// The rows are those of no register: the kept row at this place, counted from 1, is the first that is not sound;
    /// or the first that has no moment and should have one; at 0 rows of the other tables are left over, or a table
    /// cannot be read.
    #[error("damaged at row {row}")]
    Damaged { row: u64 },
    /// No memory was left.
    #[error("out of memory")]
    Memory,
    /// The database refused for another cause.
    #[error("the database failed")]
    Disk,
}

impl From<sqlite::Error> for CreateFault {
    ghost use Rattle.std.specs.Prelude.{◌≡◌};
    ghost use Rattle.register_tables.specs.Faults.{create_fault};

    ghost from_gives = { λ error fault. fault ≡ create_fault error };

    fn from(error: sqlite::Error) -> CreateFault {
        match Cause::from(error) {
            Cause::Memory => CreateFault::Memory,
            Cause::Disk | Cause::Other => CreateFault::Disk,
        }
    }
}

impl From<sqlite::Error> for OpenFault {
    ghost use Rattle.std.specs.Prelude.{◌≡◌};
    ghost use Rattle.register_tables.specs.Faults.{table_fault};

    ghost from_gives = { λ error fault. fault ≡ table_fault error };

    fn from(error: sqlite::Error) -> OpenFault {
        match Cause::from(error) {
            Cause::Memory => OpenFault::Memory,
            Cause::Disk => OpenFault::Disk,
            Cause::Other => OpenFault::Damaged { row: 0 },
        }
    }
}

impl From<AllocError> for OpenFault {
    ghost use Rattle.std.specs.Prelude.{◌≡◌};
    ghost use Rattle.register_tables.specs.declared.fault.OpenFault.TheVariants.{Memory};

    ghost from_gives = { λ _ fault. fault ≡ Memory };

    fn from(_error: AllocError) -> OpenFault {
        OpenFault::Memory
    }
}
