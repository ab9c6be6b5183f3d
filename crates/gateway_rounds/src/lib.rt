//! Connections of a port and an intake, in rounds. What may live here: the order in which what waits in a port is
//! decided and answered, or turned away while the register is closed.
#![tactic(auto)]

mod at_once;
mod away;
mod group;
mod new;
mod note;
mod one;
mod port;
mod round;
mod sort;
mod verdict;

pub use away::turn_away;
pub use note::Note;
pub use port::Port;
pub use round::answer_ready;
