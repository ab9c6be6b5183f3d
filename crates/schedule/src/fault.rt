//! Why an event was not played.

use crate::ends::fault::EndFault;
use outbox_core::StoreFault;
use std::alloc::AllocError;
use thiserror::Error;

/// Why the world stopped. Events count from 1, and 0 stands for its making.
#[derive(Clone, Copy, Debug, PartialEq, Eq, Error)]
pub enum Fault {
    /// A number names nothing, an output answers a stranger, or an end that the event needs is down.
    #[error("event {event}: no such")]
    NoSuch { event: u64 },
    /// No memory was left.
    #[error("out of memory")]
    Memory,
    /// A database refused for another cause.
    #[error("event {event}: the database failed")]
    Store { event: u64 },
    /// A database was not given back or not opened, for another cause than memory.
    #[error("event {event}: the database was not opened")]
    Reopen { event: u64 },
}

/// Why an event was not played, whichever it was.
#[derive(Clone, Copy)]
pub(crate) enum Unplayed {
    /// A number names nothing, an output answers a stranger, or an end that the event needs is down.
    NoSuch,
    /// An end refused.
    Refused(EndFault),
}

impl From<EndFault> for Unplayed {
    ghost use Rattle.std.specs.Prelude.{◌≡◌};
    ghost use Rattle.schedule.specs.declared.fault.Unplayed.TheVariants.{Refused};

    ghost from_gives = { λ cause why. why ≡ Refused cause };

    fn from(cause: EndFault) -> Unplayed {
        Unplayed::Refused(cause)
    }
}

impl From<StoreFault> for Unplayed {
    ghost use Rattle.std.specs.Prelude.{◌≡◌};
    ghost use Rattle.schedule.specs.Causes.{store_cause};
    ghost use Rattle.schedule.specs.declared.fault.Unplayed.TheVariants.{Refused};

    ghost from_gives = { λ fault why. why ≡ Refused (store_cause fault) };

    fn from(fault: StoreFault) -> Unplayed {
        Unplayed::Refused(EndFault::from(fault))
    }
}

impl From<AllocError> for Unplayed {
    ghost use Rattle.std.specs.Prelude.{◌≡◌};
    ghost use Rattle.schedule.specs.declared.ends.fault.EndFault.TheVariants.{Memory};
    ghost use Rattle.schedule.specs.declared.fault.Unplayed.TheVariants.{Refused};

    ghost from_gives = { λ _ why. why ≡ Refused Memory };

    fn from(_error: AllocError) -> Unplayed {
        Unplayed::Refused(EndFault::Memory)
    }
}

impl Fault {
    ghost use Rattle.std.specs.Prelude.{◌≡◌};
    ghost use Rattle.schedule.specs.Faults.{fault_at, refused_at};

    /// The event of this number was not played, as an end refused.
    pub(crate) fn of_refusal(cause: EndFault, event: u64) -> Fault
        ensures { result ≡ refused_at event cause }
    {
        match cause {
            EndFault::Memory => Fault::Memory,
            EndFault::Store => Fault::Store { event },
            EndFault::Reopen => Fault::Reopen { event },
        }
    }

    /// The event of this number was not played.
    pub(crate) fn of(why: Unplayed, event: u64) -> Fault
        ensures { result ≡ fault_at event why }
    {
        match why {
            Unplayed::NoSuch => Fault::NoSuch { event },
            Unplayed::Refused(cause) => Fault::of_refusal(cause, event),
        }
    }
}
