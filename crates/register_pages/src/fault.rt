//! Why a file of a register's pages is missed.

ghost use Rattle.std.specs.Prelude.{◌≡◌};
ghost use Rattle.register_pages.specs.Faults.{missed_why};

use crate::folder::NotWritten;
use register_extracts::Why;
use std::alloc::AllocError;

/// Why a file is missed. The others are written still.
#[derive(Clone, Copy, Debug)]
pub enum Missed {
    /// No memory was left for it.
    Memory,
    /// The folder failed.
    Folder,
}

impl From<AllocError> for Missed {
    fn from(_error: AllocError) -> Missed {
        Missed::Memory
    }
}

impl From<NotWritten> for Missed {
    fn from(_fault: NotWritten) -> Missed {
        Missed::Folder
    }
}

impl From<Missed> for Why {
    ghost from_gives = { λ missed given. given ≡ missed_why missed };

    fn from(missed: Missed) -> Why {
        match missed {
            Missed::Memory => Why::Memory,
            Missed::Folder => Why::Folder,
        }
    }
}
