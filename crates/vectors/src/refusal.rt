//! Calls that are refused.

ghost use Rattle.std.specs.Prelude.{◌≡◌, IfOk};

use std::alloc::AllocError;

/// What a call answers, if it is not refused because memory ran out, as this fault says.
pub(crate) fn answer<T: Drop, F: Copy + PartialEq>(
    outcome: Result<T, F>,
    memory: F,
) -> Result<Result<T, F>, AllocError>
    ensures { IfOk result (λ answer. answer ≡ outcome) }
{
    match outcome {
        Err(fault) if fault == memory => Err(AllocError),
        outcome => Ok(outcome),
    }
}

/// The connection that a call gives back when it is refused for this reason; `None` if it is not, and `Err` if memory
/// was refused.
pub(crate) fn refused<T: Drop, C: Drop, F: Copy + PartialEq>(
    outcome: Result<T, (F, C)>,
    reason: F,
    memory: F,
) -> Result<Option<C>, AllocError> {
    match outcome {
        Ok(_) => Ok(None),
        Err((fault, conn)) => {
            if fault == memory {
                Err(AllocError)
            } else {
                Ok((fault == reason).then_some(conn))
            }
        }
    }
}
