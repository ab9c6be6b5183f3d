//! Why there is no key.

ghost use Rattle.std.specs.Prelude.{◌≡◌};
ghost use Rattle.key_string.specs.declared.fault.KeyFault.TheVariants.{Memory};

use std::alloc::AllocError;
use thiserror::Error;

/// Why a text or a field's value gives no key. The limits are own rules.
#[derive(Clone, Copy, Debug, PartialEq, Eq, Error)]
pub enum KeyFault {
    /// The value is not exactly one String of RFC 8941, section 3.3.3.
    #[error("the value is not a quoted string")]
    NotString,
    /// The text is empty.
    #[error("the key is empty")]
    Empty,
    /// There are more than 1,024 characters.
    #[error("the key is longer than 1024 characters")]
    TooLong,
    /// The byte at this place is the first outside %x20-7E. Places count from 0.
    #[error("byte {at} of the key is not printable ASCII")]
    NotPrintable { at: usize },
    /// The text or the value gives a key, and memory ran out.
    #[error("out of memory")]
    Memory,
}

impl From<AllocError> for KeyFault {
    ghost from_gives = { λ _ fault. fault ≡ Memory };

    fn from(_error: AllocError) -> KeyFault {
        KeyFault::Memory
    }
}
