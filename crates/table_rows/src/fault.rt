//! How a call on the rows of a store is refused.

use crate::cause::Cause;
use std::alloc::{AllocError, AllocFailed};

/// Why a call on the rows failed. The rows are as they were.
#[derive(Clone, Copy, Debug, PartialEq, Eq, thiserror::Error)]
pub enum StoreFault {
    /// No memory was left.
    #[error("out of memory")]
    Memory,
    /// The database refused for another cause, or gave a value that no table of ours holds.
    #[error("the database failed")]
    Store,
}

impl From<sqlite::Error> for StoreFault {
    ghost use Rattle.std.specs.Prelude.{◌≡◌};
    ghost use Rattle.table_rows.specs.Causes.{store_fault};

    ghost from_gives = { λ error fault. fault ≡ store_fault error };

    fn from(error: sqlite::Error) -> StoreFault {
        match Cause::from(error) {
            Cause::Memory => StoreFault::Memory,
            Cause::Disk | Cause::Other => StoreFault::Store,
        }
    }
}

impl From<AllocError> for StoreFault {
    ghost use Rattle.std.specs.Prelude.{◌≡◌};
    ghost use Rattle.table_rows.specs.declared.fault.StoreFault.TheVariants.{Memory};

    ghost from_gives = { λ _ fault. fault ≡ Memory };

    fn from(_error: AllocError) -> StoreFault {
        StoreFault::Memory
    }
}

impl<T: Drop> From<AllocFailed<T>> for StoreFault {
    ghost use Rattle.std.specs.Prelude.{◌≡◌};
    ghost use Rattle.table_rows.specs.declared.fault.StoreFault.TheVariants.{Memory};

    ghost from_gives = { λ _ fault. fault ≡ Memory };

    fn from(_error: AllocFailed<T>) -> StoreFault {
        StoreFault::Memory
    }
}
