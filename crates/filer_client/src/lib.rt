//! The filer's side of a connection: an entry's request is written, a reply is read, and the entry
//! moves by it. What may live here: the order of these, and why they fail.
#![tactic(auto)]

mod client;
mod fault;
mod request;

pub use client::{exchange, hand_over};
pub use fault::ExchangeFault;
pub use request::{ToSend, open_request, request_bytes};
