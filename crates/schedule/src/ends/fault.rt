//! Why an end did not do what it was asked.

use command_line::DatabaseFault;
use outbox_core::OutboxFault;
use register_store::{CreateFault, OpenFault};
use sqlite::Error as DatabaseError;
use std::alloc::AllocError;
use table_rows::StoreFault;

/// Why an end was not made, opened, asked or closed.
#[derive(Clone, Copy, Debug, PartialEq, Eq)]
pub enum EndFault {
    /// No memory was left.
    Memory,
    /// A database refused for another cause, or its end is down.
    Store,
    /// A database was not given back or not opened, for another cause than memory.
    Reopen,
}

impl From<AllocError> for EndFault {
    ghost use Rattle.std.specs.Prelude.{◌≡◌};
    ghost use Rattle.schedule.specs.declared.ends.fault.EndFault.TheVariants.{Memory};

    ghost from_gives = { λ _ cause. cause ≡ Memory };

    fn from(_error: AllocError) -> EndFault {
        EndFault::Memory
    }
}

impl From<StoreFault> for EndFault {
    ghost use Rattle.std.specs.Prelude.{◌≡◌};
    ghost use Rattle.schedule.specs.Causes.{store_cause};

    ghost from_gives = { λ fault cause. cause ≡ store_cause fault };

    fn from(fault: StoreFault) -> EndFault {
        match fault {
            StoreFault::Memory => EndFault::Memory,
            StoreFault::Store => EndFault::Store,
        }
    }
}

impl From<intake_process::Refusal> for EndFault {
    ghost use Rattle.std.specs.Prelude.{◌≡◌};
    ghost use Rattle.schedule.specs.Causes.{register_cause};

    ghost from_gives = { λ refusal cause. cause ≡ register_cause refusal.why };

    fn from(refusal: intake_process::Refusal) -> EndFault {
        match refusal.why {
            register_extracts::Why::Files(DatabaseFault::Memory)
            | register_extracts::Why::Create(CreateFault::Memory)
            | register_extracts::Why::Open(OpenFault::Memory) => EndFault::Memory,
            register_extracts::Why::Create(_) => EndFault::Store,
            _ => EndFault::Reopen,
        }
    }
}

impl From<outbox_process::NotOpened> for EndFault {
    ghost use Rattle.std.specs.Prelude.{◌≡◌};
    ghost use Rattle.schedule.specs.Causes.{outbox_cause};

    ghost from_gives = { λ refusal cause. cause ≡ outbox_cause refusal.why };

    fn from(refusal: outbox_process::NotOpened) -> EndFault {
        match &refusal.why {
            outbox_process::Why::Files(DatabaseFault::Memory)
            | outbox_process::Why::Create(OutboxFault::Memory)
            | outbox_process::Why::Open(OutboxFault::Memory) => EndFault::Memory,
            outbox_process::Why::Create(_) => EndFault::Store,
            _ => EndFault::Reopen,
        }
    }
}

impl EndFault {
    ghost use Rattle.std.specs.Prelude.{◌≡◌};
    ghost use Rattle.schedule.specs.Causes.{closing_cause, close_cause};

    /// The cause if a database was not closed.
    pub fn of_close(error: DatabaseError) -> EndFault
        ensures { result ≡ close_cause error }
    {
        EndFault::of_closing(StoreFault::from(error))
    }

    /// The cause if a store did not give its files back.
    fn of_closing(fault: StoreFault) -> EndFault
        ensures { result ≡ closing_cause fault }
    {
        match fault {
            StoreFault::Memory => EndFault::Memory,
            StoreFault::Store => EndFault::Reopen,
        }
    }
}
