//! Why something that was asked of a register is not done. What may live here: the one fault of all that is asked of a
//! register, here and in the crates above. Which of its variants a function answers, the contract of that function
//! says.

ghost use Rattle.std.specs.Prelude.{◌≡◌};
ghost use Rattle.register_extracts.specs.declared.fault.Why.TheVariants as why;

use command_line::DatabaseFault;
use register_store::{CreateFault, OpenFault, StoreFault};
use sqlite::Error as DatabaseError;
use std::alloc::AllocError;

/// Why something that was asked of a register is not done.
#[derive(Clone, Copy, Debug, PartialEq, Eq)]
pub enum Why {
    /// The files gave no database. The fault does not depend on the bytes of the file.
    Files(DatabaseFault),
    /// A register was to be made in a database that isn't empty.
    Taken,
    /// No register was made in a database that is empty.
    Create(CreateFault),
    /// The database is no sound register of this version, or was not read. Nothing was written.
    Open(OpenFault),
    /// No register of an earlier version was upgraded.
    Migrate(OpenFault),
    /// The register is sound, and was not read.
    Store(StoreFault),
    /// The filings of a filer were not listed.
    List(StoreFault),
    /// There is no filing of this number.
    NoFiling { number: u64 },
    /// There is no request of this filer under this key.
    NoRequest,
    /// The register keeps so many requests, and that is fewer than were asked for.
    TooFew { kept: u64 },
    /// The digest of the first requests, so many, is not the one that was published.
    Another { count: u64 },
    /// No memory was left for what is to be printed or written.
    Memory,
    /// The output failed.
    Output,
    /// The folder failed.
    Folder,
    /// What was committed is in the log still: closing failed.
    NotClosed(DatabaseError),
}

impl From<OpenFault> for Why {
    ghost from_gives = { λ fault given. given ≡ why.Open fault };

    fn from(fault: OpenFault) -> Why {
        Why::Open(fault)
    }
}

impl From<StoreFault> for Why {
    ghost from_gives = { λ fault given. given ≡ why.Store fault };

    fn from(fault: StoreFault) -> Why {
        Why::Store(fault)
    }
}

impl From<AllocError> for Why {
    ghost from_gives = { λ _ given. given ≡ why.Memory };

    fn from(_error: AllocError) -> Why {
        Why::Memory
    }
}
