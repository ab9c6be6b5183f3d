//! Why something that was asked of an outbox is not done.

ghost use Rattle.std.specs.Prelude.{◌≡◌};
ghost use Rattle.outbox_process.specs.Faults.{is_of_exchange, is_of_entry, leaves_doubt};

use command_line::DatabaseFault;
use database_places::Holding;
use filer_client::ExchangeFault;
use http_wire::ReplyFault;
use outbox_core::{OutboxFault, PutFault, State, StoreFault};
use std::alloc::AllocError;
use std::io;

/// Why something that was asked of an outbox is not done.
#[derive(Debug, Drop)]
pub enum Why {
    /// The files gave no database. The fault does not depend on the bytes of the file.
    Files(DatabaseFault),
    /// An outbox was to be made in a database that isn't empty.
    Taken,
    /// No outbox was made in a database that is empty.
    Create(OutboxFault),
    /// The database is no sound outbox of this version, or was not read.
    Open(OutboxFault),
    /// The outbox to be migrated has this version already.
    IsCurrent,
    /// No outbox of an earlier version was upgraded.
    Migrate(OutboxFault),
    /// The outbox is sound, and was not read.
    Store(StoreFault),
    /// No entry has the id.
    NoEntry { id: u64 },
    /// The entry of this id is open, and only a settled one is asked about.
    IsOpen { id: u64 },
    /// No report was put in.
    Put(PutFault),
    /// The report was put in as the entry of this id, and that could not be printed: memory ran out, or the output
    /// failed.
    NotTold { id: u64, wants_memory: bool },
    /// No connection was made.
    Connect(io::Error),
    /// The exchange for the entry of this id failed. If it was open, it is open still.
    Exchange { id: u64, fault: ExchangeFault },
    /// The entry of this id is confirmed under this number, but the register does not list it as that filing. So its
    /// request was not sent again.
    NotListed { id: u64, number: u64 },
    /// Whether the register lists the filing of this number, as which the entry of this id is confirmed, is not known:
    /// the reply has this status, and no list. So the request of the entry was not sent again.
    NoList { id: u64, number: u64, status: u16 },
    /// The reply to the question about the entry of this id is printed, and contradicts the entry, which is in this
    /// state: it would settle an open entry as the other.
    Contradicts { id: u64, state: State, told: State },
    /// No memory was left for what is to be printed or sent.
    Memory,
    /// The output failed.
    Output,
    /// What was committed is in the log still: closing failed.
    NotClosed,
}

impl From<StoreFault> for Why {
    ghost use Rattle.std.specs.Prelude.{◌≡◌};
    ghost use Rattle.outbox_process.specs.declared.fault.Why.TheVariants.{Store};

    ghost from_gives = { λ fault why. why ≡ Store fault };

    fn from(fault: StoreFault) -> Why {
        Why::Store(fault)
    }
}

impl From<AllocError> for Why {
    ghost use Rattle.std.specs.Prelude.{◌≡◌};
    ghost use Rattle.outbox_process.specs.declared.fault.Why.TheVariants.{Memory};

    ghost from_gives = { λ _ why. why ≡ Memory };

    fn from(_error: AllocError) -> Why {
        Why::Memory
    }
}

impl Why {
    /// Whether an opening that was refused like this may have changed what lies in the place: it had taken the files
    /// and got no database, or was making an outbox.
    pub(crate) fn leaves_doubt(&self, was_taken: bool) -> bool
        ensures { result ≡ leaves_doubt was_taken self.now }
    {
        match self {
            Why::Files(_) => was_taken,
            Why::Create(_) => true,
            _ => false,
        }
    }

    /// Whether the database is not the outbox that was asked for, so that this program leaves nothing beside it.
    pub(crate) fn is_of_others(&self) -> bool {
        matches!(
            self,
            Why::Taken
                | Why::IsCurrent
                | Why::Open(OutboxFault::NotOurs)
                | Why::Migrate(OutboxFault::NotOurs)
        )
    }

    /// Whether it is a fault of one exchange, so that the next may be made: the connection broke, or what came is not a
    /// whole reply.
    pub(crate) fn is_of_entry(&self) -> bool
        ensures { result ≡ is_of_entry self.now }
    {
        match self {
            Why::Exchange { fault, .. } => is_of_exchange(*fault),
            _ => false,
        }
    }
}

/// Whether the exchange failed by its connection or by what came on it.
fn is_of_exchange(fault: ExchangeFault) -> bool
    ensures { result ≡ is_of_exchange fault }
{
    match fault {
        ExchangeFault::Write { .. } => true,
        ExchangeFault::Reply(fault) => fault != ReplyFault::Memory,
        ExchangeFault::Take(_) => false,
    }
}

/// Why no outbox was opened, and what the database holds.
#[derive(Debug, Drop)]
pub struct NotOpened {
    pub why: Why,
    pub holding: Holding,
}
