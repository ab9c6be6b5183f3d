//! What a request asks for, and which requests a connection completed: functions of the bytes that came and of their
//! marks. What may live here: reading paths, methods and keys. What the register answers is not known here.
#![tactic(auto)]

mod completion;
mod path;
mod route;

pub use completion::{completed, first_request};
pub use route::{Rejection, Route, is_head, route_of};
