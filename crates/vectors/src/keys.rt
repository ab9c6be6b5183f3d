//! The vector of keys.

use crate::examples::repeated;
use crate::refusal::answer;
use key_string::{KeyFault, KeyText, append_key, read_key};
use std::alloc::{AllocError, Global};

/// Vector 8: what spells a key, and what does not.
pub(crate) fn keys(alloc: Global) -> Result<bool, AllocError> {
    Ok(spelling(alloc)? && no_strings(alloc)? && long_keys(alloc)? && unprintable(alloc)?)
}

/// A key with both characters that are escaped, read and written again.
fn spelling(alloc: Global) -> Result<bool, AllocError> {
    let field = b"\"a\\\"b\\\\c\"";
    let Ok(key) = answer(read_key(alloc, field), KeyFault::Memory)? else {
        return Ok(false);
    };
    let mut written = Vec::new(alloc);
    append_key(&key, &mut written)?;
    Ok(key.as_str() == "a\"b\\c" && written.as_slice() == field.as_slice())
}

/// Fields that are no String, and the empty one.
fn no_strings(alloc: Global) -> Result<bool, AllocError> {
    for (field, fault) in [
        ("\"a\\nb\"", KeyFault::NotString),
        ("k-1", KeyFault::NotString),
        ("\"a", KeyFault::NotString),
        ("\"a\";p=1", KeyFault::NotString),
        ("\"\"", KeyFault::Empty),
    ] {
        let read = answer(read_key(alloc, field.as_bytes()), KeyFault::Memory)?;
        if read.err() != Some(fault) {
            return Ok(false);
        }
    }
    Ok(true)
}

/// The longest key, and a longer one.
fn long_keys(alloc: Global) -> Result<bool, AllocError> {
    for (letters, fault) in [(1024, None), (1025, Some(KeyFault::TooLong))] {
        let text = repeated(alloc, 'a', letters)?;
        let field = format!(in alloc; "\"{text}\"")?;
        let read = answer(read_key(alloc, field.as_bytes()), KeyFault::Memory)?;
        if read.err() != fault || text_fault(alloc, &text)? != fault {
            return Ok(false);
        }
    }
    Ok(true)
}

/// How a text is refused as a key, if it is.
fn text_fault(alloc: Global, text: &str) -> Result<Option<KeyFault>, AllocError> {
    Ok(answer(KeyText::new(alloc, text), KeyFault::Memory)?.err())
}

/// Bare texts that are no key.
fn unprintable(alloc: Global) -> Result<bool, AllocError> {
    Ok(
        text_fault(alloc, "a\t")? == Some(KeyFault::NotPrintable { at: 1 })
            && text_fault(alloc, "")? == Some(KeyFault::Empty),
    )
}
