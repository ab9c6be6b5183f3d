//! Copies of keys.

ghost use Rattle.std.specs.Prelude.{◌≡◌, IfOk};
ghost use Rattle.key_string.specs.Key.{IsKey};

use key_string::{KeyFault, KeyText};
use std::alloc::{AllocError, Global};

/// A copy of a key.
pub fn copy_key(alloc: Global, key: &KeyText) -> Result<KeyText, AllocError>
    ensures same { IfOk result (λ copy. copy ≡ key.now) }
    ensures key { IsKey key.now }
{
    match KeyText::new(alloc, key.as_str()) {
        Ok(copy) => Ok(copy),
        Err(fault) => {
            prove!(fault == KeyFault::Memory);
            Err(AllocError)
        }
    }
}
