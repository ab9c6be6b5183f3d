//! The server's side of one HTTP/1.1 connection, without its input and output: bytes in, events out.
//! What may live here: which bytes are held, how far they were searched, and which event comes next. Which bytes are a
//! message is known by `http_messages`; who brings the bytes, and what is written, is not known here.
#![tactic(auto)]

mod buffer;
mod connection;
mod event;
pub mod laws;
mod parsed;
#[cfg(test)]
mod tests;

pub use buffer::{Buffer, MAX_HELD};
pub use connection::Connection;
pub use event::{Event, Request};
