//! What may happen to an intake and to the outboxes of its filers, as a list of events, the scripts that spell such
//! lists, and the lines that show what came of a script. What may live here: the events, and how a text spells them and
//! what they led to. What an event does is not known here.
#![tactic(auto)]

mod complaint;
mod event;
mod event_line;
mod fault;
mod lines;
mod put;
mod read;
mod script;
mod shown;
mod stranger;
mod words;

pub use complaint::{Complaint, ScriptPart, Wrong, complaint_of};
pub use event::{Crash, Event};
pub use fault::ScriptFault;
pub use read::read_script;
pub use script::Script;
pub use shown::{append_done, append_entry, append_filing};
