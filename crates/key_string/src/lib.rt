//! The idempotency key of a request as a String of structured fields (RFC 8941, section 3.3.3), and
//! the codes of filers. What may live here: short texts that both ends of a connection read and write
//! in one way. Heads, bodies and registers are not known here.
#![tactic(auto)]

mod fault;
mod filer;
mod key;
pub mod laws;

pub use fault::KeyFault;
pub use filer::{is_filer, read_filer};
pub use key::{KeyText, append_key, is_key, read_key};
