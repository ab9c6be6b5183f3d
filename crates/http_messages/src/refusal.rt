//! Why a request is refused, why a connection can't go on, and why no reply was read.
ghost use Rattle.std.specs.Prelude.{◌≡◌};
ghost use Rattle.http_messages.specs.declared.refusal.ConnFault.TheVariants.{Memory};
ghost use Rattle.http_messages.specs.declared.refusal.ReplyFault.TheVariants.{Memory as NoMemory};

use crate::head::HeadFault;
use std::alloc::{AllocError, AllocFailed};
use thiserror::Error;

/// Why no request can be read from here on.
#[derive(Clone, Copy, Debug, PartialEq, Eq)]
pub enum Refusal {
    /// The block has more than 16,384 bytes.
    HeadTooLarge,
    /// The head of the request is refused.
    Head(HeadFault),
}

/// Why a connection can't go on.
#[derive(Clone, Copy, Debug, PartialEq, Eq, Error)]
pub enum ConnFault {
    #[error("the reader failed")]
    Read,
    #[error("the writer failed after {sent} bytes")]
    Write { sent: usize },
    #[error("too many reads")]
    ReadLimit,
    #[error("out of memory")]
    Memory,
}

/// Why no reply was read.
#[derive(Clone, Copy, Debug, PartialEq, Eq, Error)]
pub enum ReplyFault {
    /// The input ended inside the reply.
    #[error("the reply is cut")]
    Cut,
    /// A head isn't one of a response, there is a Transfer-Encoding, or the parts of Content-Length
    /// aren't one number (RFC 9112, sections 4, 5 and 6.3).
    #[error("the reply is malformed")]
    Malformed,
    /// There is no Content-Length, an own rule.
    #[error("the content length of the reply is missing")]
    NoLength,
    /// A head of more than 16,384 bytes, or a content of more than 8,388,608, own rules.
    #[error("the reply is too large")]
    TooLarge,
    #[error("the reader failed")]
    Read,
    #[error("too many reads")]
    ReadLimit,
    #[error("out of memory")]
    Memory,
}

impl From<AllocError> for ConnFault {
    ghost from_gives = { λ _ fault. fault ≡ Memory };

    fn from(_error: AllocError) -> ConnFault {
        ConnFault::Memory
    }
}

impl<T: Drop> From<AllocFailed<T>> for ConnFault {
    ghost from_gives = { λ _ fault. fault ≡ Memory };

    fn from(_error: AllocFailed<T>) -> ConnFault {
        ConnFault::Memory
    }
}

impl From<AllocError> for ReplyFault {
    ghost from_gives = { λ _ fault. fault ≡ NoMemory };

    fn from(_error: AllocError) -> ReplyFault {
        ReplyFault::Memory
    }
}

impl From<ConnFault> for ReplyFault {
    ghost use Rattle.http_messages.specs.ReplyFaults.{fault_of_read};

    ghost from_gives = { λ fault own. own ≡ fault_of_read fault };

    fn from(fault: ConnFault) -> ReplyFault {
        match fault {
            ConnFault::Read | ConnFault::Write { .. } => ReplyFault::Read,
            ConnFault::ReadLimit => ReplyFault::ReadLimit,
            ConnFault::Memory => ReplyFault::Memory,
        }
    }
}
