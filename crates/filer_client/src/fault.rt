//! Why an exchange failed.

use http_wire::ReplyFault;
use outbox_core::TakeFault;
use thiserror::Error;

/// Why an entry was not moved. The entry is unchanged.
#[derive(Clone, Copy, Debug, PartialEq, Eq, Error)]
pub enum ExchangeFault {
    /// The writer failed after so many bytes of the request.
    #[error("the writer failed after {sent} bytes")]
    Write { sent: usize },
    /// No reply was read.
    #[error("{0}")]
    Reply(ReplyFault),
    /// The entry was not read, its request not built, or its state not written.
    #[error("{0}")]
    Take(TakeFault),
}

impl From<ReplyFault> for ExchangeFault {
    ghost use Rattle.std.specs.Prelude.{◌≡◌};
    ghost use Rattle.filer_client.specs.declared.fault.ExchangeFault.TheVariants.{Reply};

    ghost from_gives = { λ fault own. own ≡ Reply fault };

    fn from(fault: ReplyFault) -> ExchangeFault {
        ExchangeFault::Reply(fault)
    }
}

impl From<TakeFault> for ExchangeFault {
    ghost use Rattle.std.specs.Prelude.{◌≡◌};
    ghost use Rattle.filer_client.specs.declared.fault.ExchangeFault.TheVariants.{Take};

    ghost from_gives = { λ fault own. own ≡ Take fault };

    fn from(fault: TakeFault) -> ExchangeFault {
        ExchangeFault::Take(fault)
    }
}
