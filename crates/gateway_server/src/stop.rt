//! Where serving a connection may be stopped.

ghost use Rattle.std.specs.Prelude.{MatchBool};
ghost use Rattle.gateway_server.specs.Stopping.{view_stop, IsBefore, IsAfter};

/// A request of a connection to stop at, by its number. Requests are counted from 1, and what is
/// refused in the place of one counts as one. The number 0 acts as 1.
#[derive(Clone, Copy, Debug, PartialEq, Eq)]
pub enum Stop {
    /// The connection is served to its end.
    Never,
    /// Once the request is read whole, and before it is decided.
    Before(u32),
    /// Once the request is decided and marked, and before its reply is written.
    After(u32),
}

impl Stop {
    /// Whether to stop before the request of this number is decided.
    pub(crate) fn is_before(self, number: usize) -> bool
        ensures { MatchBool result (IsBefore (view_stop self) number) (¬ (IsBefore (view_stop self) number)) }
    {
        match self {
            Stop::Before(request) => number == request.max(1) as usize,
            Stop::Never | Stop::After(_) => false,
        }
    }

    /// Whether to stop after the request of this number is decided.
    pub(crate) fn is_after(self, number: usize) -> bool
        ensures { MatchBool result (IsAfter (view_stop self) number) (¬ (IsAfter (view_stop self) number)) }
    {
        match self {
            Stop::After(request) => number == request.max(1) as usize,
            Stop::Never | Stop::Before(_) => false,
        }
    }
}
