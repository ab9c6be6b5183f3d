//! What a read is made into.
ghost use Rattle.std.specs.Prelude.{◌≡◌, vec_len};

use std::alloc::{AllocError, Global};

/// The most bytes of one read.
pub(crate) const ROOM: usize = 16_384;

/// Bytes for one read, which are zeroed once.
#[derive(Drop)]
pub(crate) struct Room {
    pub(crate) bytes: Vec<u8>,
    ghost full: { vec_len bytes ≡ 16384 },
}

impl Room {
    /// Zeros.
    pub(crate) fn new(alloc: Global) -> Result<Room, AllocError> {
        let mut bytes = Vec::with_capacity(alloc, ROOM)?;
        while bytes.len() < ROOM {
            bytes.push_reserved(0);
        }
        Ok(Room { bytes })
    }
}
