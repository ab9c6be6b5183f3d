//! Texts that are put together of parts.

use std::alloc::{AllocError, Global};

/// Texts one after another, each so many times.
pub type Text = &'static [(&'static str, usize)];

/// The bytes of these texts.
pub fn bytes_of(alloc: Global, text: Text) -> Result<Vec<u8>, AllocError> {
    let mut bytes = Vec::new(alloc);
    for &(part, times) in text {
        for _ in 0..times {
            bytes.extend_from_slice(part.as_bytes())?;
        }
    }
    Ok(bytes)
}

/// The first bytes, at most so many.
pub fn front(bytes: &[u8], most: usize) -> &[u8] {
    &bytes[..most.min(bytes.len())]
}
