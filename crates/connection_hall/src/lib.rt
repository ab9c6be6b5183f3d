//! Connections that one thread serves at once, each driven by `http_connection`. What may live here: what is read of
//! each, owed and written, in whatever order the connections may go on and in whatever parts their bytes come and go,
//! and whose turn is next. Which event comes next on one connection is known by `http_connection`; what an arrival is
//! answered with is not known here.
#![tactic(auto)]

mod bounds;
mod deadlines;
mod hall;
#[cfg(test)]
mod hall_tests;
pub mod laws;
mod loan;
mod loans;
mod ready;
mod room;
mod round;
mod script;
mod scripted_sockets;
mod served;
mod sockets;
mod stream;
#[cfg(test)]
mod tests;
mod turn;
mod why;

pub use bounds::Bounds;
pub use hall::Hall;
pub use ready::Arrived;
pub use script::{Reads, ScriptedStream, Writes};
pub use scripted_sockets::{Event, ScriptedSockets};
pub use sockets::Sockets;
pub use stream::{Broken, Got, Stream};
pub use why::Why;
