//! Why a script was not played to its end and shown, in words and as a status.

ghost use Rattle.std.specs.Prelude.{◌≡◌};
ghost use Rattle.command_line.specs.declared.fault.CommandFault.TheVariants.{Memory};
ghost use Rattle.drill_commands.specs.declared.fault.NotDone.TheVariants.{Command, Script, World, Register};
ghost use Rattle.drill_commands.specs.declared.fault.NotDone.TheVariants.{Outbox, Key};

use command_line::{CommandFault, ReadFault, tell};
use event_script::ScriptFault;
use intake_core::Unavailable;
use key_string::KeyFault;
use outbox_core::StoreFault;
use schedule::Fault as WorldFault;
use std::alloc::AllocError;
use std::io::Write;
use thiserror::Error;

/// Why nothing is shown. Its text is one line.
#[derive(Debug, Drop, Error)]
pub enum NotDone {
    #[error("{0}")]
    Command(#[from] CommandFault<'static>),
    #[error("the script: {0}")]
    Read(ReadFault),
    #[error("the script has more than 8388608 bytes")]
    TooLong,
    #[error("the script is not UTF-8")]
    NotText,
    #[error("{0}")]
    Script(ScriptFault),
    #[error("{0}")]
    World(WorldFault),
    #[error("the register: {0}")]
    Register(Unavailable),
    #[error("an outbox: {0}")]
    Outbox(StoreFault),
    #[error("a key of the register: {0}")]
    Key(KeyFault),
}

impl From<AllocError> for NotDone {
    ghost from_gives = { λ _ fault. fault ≡ Command Memory };

    fn from(_error: AllocError) -> NotDone {
        NotDone::Command(CommandFault::Memory)
    }
}

impl From<ScriptFault> for NotDone {
    ghost from_gives = { λ why fault. fault ≡ Script why };

    fn from(why: ScriptFault) -> NotDone {
        NotDone::Script(why)
    }
}

impl From<WorldFault> for NotDone {
    ghost from_gives = { λ why fault. fault ≡ World why };

    fn from(why: WorldFault) -> NotDone {
        NotDone::World(why)
    }
}

impl From<Unavailable> for NotDone {
    ghost from_gives = { λ why fault. fault ≡ Register why };

    fn from(why: Unavailable) -> NotDone {
        NotDone::Register(why)
    }
}

impl From<StoreFault> for NotDone {
    ghost from_gives = { λ why fault. fault ≡ Outbox why };

    fn from(why: StoreFault) -> NotDone {
        NotDone::Outbox(why)
    }
}

impl From<KeyFault> for NotDone {
    ghost from_gives = { λ why fault. fault ≡ Key why };

    fn from(why: KeyFault) -> NotDone {
        NotDone::Key(why)
    }
}

impl NotDone {
    ghost use Rattle.drill_commands.specs.Status.{status_of};

    /// The status that the program ends with: 1 if an event names nothing, 2 for the command line
    /// and for a line of the script, 3 for a fault of memory, the input, the output or a database.
    pub fn status(&self) -> u8
        ensures { result ≡ status_of self.now }
    {
        match self {
            NotDone::Command(fault) => fault.status(),
            NotDone::World(WorldFault::NoSuch { .. }) => 1,
            NotDone::Script(ScriptFault::Unreadable { .. }) => 2,
            _ => 3,
        }
    }

    /// Writes the text as a line, and answers the status.
    pub fn tell<E: Write>(&self, errors: &mut E) -> u8
        ensures { result ≡ status_of self.now }
    {
        tell("drill", self, errors);
        self.status()
    }
}
