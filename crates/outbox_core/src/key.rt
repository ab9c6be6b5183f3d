//! Keys of one's own making.

ghost use Rattle.std.specs.Prelude.{◌≡◌, IfOk};
ghost use Rattle.uuid.specs.Text.{hyphenated_text, lower};

use key_string::{KeyFault, KeyText};
use std::alloc::{AllocError, Global};
use uuid::Uuid;

/// The key that a UUID is in its hyphenated form, in lower case (RFC 9562, section 4).
pub fn key_of(alloc: Global, id: Uuid) -> Result<KeyText, AllocError>
    ensures { IfOk result (λ key. key ≡ hyphenated_text lower id) }
{
    let mut buffer = [0u8; 36];
    match KeyText::new(alloc, id.hyphenated().encode_lower(&mut buffer)) {
        Ok(key) => Ok(key),
        Err(fault) => {
            prove!(fault == KeyFault::Memory);
            Err(AllocError)
        }
    }
}
