//! The sockets of this machine, for a hall of connections. What may live here: where connections come in, how the
//! system is asked which of them may go on, and how each is read and written without waiting. What comes on them and
//! what goes is not known here.
#![tactic(auto)]

mod address;
mod listener;
mod socket;
mod socket_file;
mod system;

pub use address::Address;
pub use system::{SystemLine, SystemSockets, moment_now};
