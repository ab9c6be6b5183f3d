//! How many keys a register keeps at most.

ghost use Rattle.std.specs.Prelude.{◌≡◌, ◌≤◌, ◌<◌, ◌^◌, MatchOption};

use filing_model::MAX_KEPT;

/// How many keys are kept at most.
#[derive(Clone, Copy)]
pub(crate) struct Limit {
    pub(crate) keys: u64,
    ghost few: { keys ≤ 2 ^ 62 },
}

impl Limit {
    /// The limit, if it is no greater than the greatest.
    pub(crate) fn new(keys: u64) -> Option<Limit>
        ensures { MatchOption result (2 ^ 62 < keys) (λ limit. limit.keys ≡ keys) }
    {
        if keys <= MAX_KEPT {
            Some(Limit { keys })
        } else {
            None
        }
    }
}
