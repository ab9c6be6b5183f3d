//! What a connection did with its turn.
use crate::why::Why;

/// What a connection did with its turn.
#[derive(Clone, Copy)]
pub(crate) enum Turn {
    /// It may go on at once.
    Again,
    /// It goes on when the system says so.
    Waits,
    /// It reads on once room is lent to it.
    Short,
    /// It goes on once what arrived on it is answered.
    Ready,
    /// It is over.
    Over(Why),
}
