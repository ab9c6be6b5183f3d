//! What `drill` does: it plays a script of events on an intake and the outboxes of its filers, all in memory, and shows
//! what came of it. What may live here: the words and the input of the program, the calls that it makes, and what it
//! prints. What a script says and what an event does is not known here.
#![tactic(auto)]

mod complaint;
mod fault;
mod lines;
mod options;
mod playing;
mod tasks;

pub use fault::NotDone;
pub use lines::shown;
pub use playing::played;
pub use tasks::{main, perform};
