//! What a fault says of the files of a register.

ghost use Rattle.std.specs.Prelude.{◌≡◌};
ghost use Rattle.intake_process.specs.Fault.{is_refusal, leaves_doubt};

use database_places::Holding;
use register_extracts::Why;
use register_store::OpenFault;

/// Why a register is not opened, or an errand to it not done, and what the database holds.
#[derive(Clone, Copy, Debug)]
pub struct Refusal {
    pub why: Why,
    /// `Nothing` if the files gave no database.
    pub holding: Holding,
}

/// Whether the files gave no database, or the database no register.
pub(crate) fn is_refusal(why: Why) -> bool
    ensures { result ≡ is_refusal why }
{
    match why {
        Why::Files(_) => true,
        Why::Open(_) => true,
        Why::Migrate(_) => true,
        _ => false,
    }
}

/// Whether the database is not a register.
pub(crate) fn is_of_others(why: Why) -> bool {
    matches!(
        why,
        Why::Taken | Why::Open(OpenFault::NotOurs) | Why::Migrate(OpenFault::NotOurs)
    )
}

/// Whether such a fault leaves doubt of what lies in the place. `was_taken` says whether its files were taken.
pub(crate) fn leaves_doubt(was_taken: bool, why: Why) -> bool
    ensures { result ≡ leaves_doubt was_taken why }
{
    match why {
        Why::Files(_) => was_taken,
        Why::Create(_) => true,
        // Such a migration may be committed all the same.
        Why::Migrate(OpenFault::Memory | OpenFault::Disk) => true,
        _ => false,
    }
}
