//! Why a text is no script.

ghost use Rattle.std.specs.Prelude.{◌≡◌};
ghost use Rattle.event_script.specs.declared.fault.ScriptFault.TheVariants.{Memory};

use std::alloc::AllocError;
use thiserror::Error;

/// Why a text is no script.
#[derive(Clone, Copy, Debug, PartialEq, Eq, Error)]
pub enum ScriptFault {
    /// The first line that may not stand there in a script, counted from 1. If the text ends before an outbox, it is
    /// the line behind the last.
    #[error("line {line}: unreadable")]
    Unreadable { line: u64 },
    /// Memory ran out.
    #[error("out of memory")]
    Memory,
}

impl From<AllocError> for ScriptFault {
    ghost from_gives = { λ _ fault. fault ≡ Memory };

    fn from(_error: AllocError) -> ScriptFault {
        ScriptFault::Memory
    }
}
