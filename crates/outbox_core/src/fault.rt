//! How the calls of an open outbox are refused.

use table_rows::StoreFault;

/// Why no entry was put. The entries are as they were.
#[derive(Clone, Copy, Debug, PartialEq, Eq, thiserror::Error)]
pub enum PutFault {
    /// The body has more than 1,048,576 bytes.
    #[error("the body is too large")]
    TooLarge,
    /// The entry of this id has the key.
    #[error("the key is that of entry {id}")]
    KeyUsed { id: u64 },
    /// No memory was left.
    #[error("out of memory")]
    Memory,
    /// The database refused for another cause, or gave a value that no table of ours holds.
    #[error("the database failed")]
    Store,
}

/// Why no reply was taken. The entries are as they were.
#[derive(Clone, Copy, Debug, PartialEq, Eq, thiserror::Error)]
pub enum TakeFault {
    /// No entry has the id.
    #[error("no entry has this id")]
    NoEntry,
    /// No memory was left.
    #[error("out of memory")]
    Memory,
    /// The database refused for another cause, or gave a value that no table of ours holds.
    #[error("the database failed")]
    Store,
}

impl From<StoreFault> for PutFault {
    ghost use Rattle.std.specs.Prelude.{◌≡◌};
    ghost use Rattle.outbox_core.specs.Faults.{putting};

    ghost from_gives = { λ fault put. put ≡ putting fault };

    fn from(fault: StoreFault) -> PutFault {
        match fault {
            StoreFault::Memory => PutFault::Memory,
            StoreFault::Store => PutFault::Store,
        }
    }
}

impl From<StoreFault> for TakeFault {
    ghost use Rattle.std.specs.Prelude.{◌≡◌};
    ghost use Rattle.outbox_core.specs.Faults.{taking};

    ghost from_gives = { λ fault take. take ≡ taking fault };

    fn from(fault: StoreFault) -> TakeFault {
        match fault {
            StoreFault::Memory => TakeFault::Memory,
            StoreFault::Store => TakeFault::Store,
        }
    }
}
