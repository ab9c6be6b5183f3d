//! The request that was sent.

ghost use Rattle.std.specs.Prelude.{◌≡◌, Some, IfOk};
ghost use Rattle.filing_model.specs.Request.{Request};
ghost use Rattle.filing_model.specs.Outbox.{bytes_of, IsSendable};

use filing_model::{Completed, Mark};
use gateway_requests::completed;
use std::alloc::{AllocError, Global};

/// The request that these bytes file, as an intake reads it; `None` if they don't file one.
pub(crate) fn request_in(alloc: Global, bytes: &[u8]) -> Result<Option<Completed>, AllocError>
    ensures { (request : Request) → IsSendable request → bytes.now ≡ bytes_of request
        → IfOk result (λ found. found ≡ Some request) }
{
    let mut found = completed(alloc, bytes, &[Mark::Done])?;
    Ok(found.pop())
}
