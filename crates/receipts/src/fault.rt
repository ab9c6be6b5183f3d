//! Why no receipt of an exchange is kept.

use http_wire::ReplyFault;
use std::alloc::AllocError;
use std::io;
use thiserror::Error;

/// Why no receipt of an exchange is kept.
#[derive(Debug, Drop, Error)]
pub enum ReceiptFault {
    /// The clock gives no moment.
    #[error("the clock failed")]
    Clock,
    /// The bytes that were noted as sent are no request that files a report.
    #[error("the request was not noted whole")]
    NoRequest,
    /// The bytes that were noted as received are no whole reply.
    #[error("{0}")]
    NoReply(ReplyFault),
    /// The reply settles nothing.
    #[error("the reply does not settle it")]
    Unsettled,
    /// The reply would settle an open entry, but not as this one is settled.
    #[error("the reply contradicts it")]
    Contradicts,
    /// What has the name of the receipt is no receipt of its entry.
    #[error("{name} is there, and is no receipt of this entry")]
    Taken { name: String },
    /// The file was not read or written.
    #[error("{0}")]
    File(#[from] io::Error),
    #[error("out of memory")]
    Memory,
}

impl From<AllocError> for ReceiptFault {
    ghost use Rattle.std.specs.Prelude.{◌≡◌};
    ghost use Rattle.receipts.specs.declared.fault.ReceiptFault.TheVariants.{Memory};

    ghost from_gives = { λ _ own. own ≡ Memory };

    fn from(_error: AllocError) -> ReceiptFault {
        ReceiptFault::Memory
    }
}
