//! The commands of `intake`: it answers the HTTP requests of filers, from standard input or a port, and shows what its
//! register holds. What may live here: the tasks with their words and limits, how the file and the port of a task are
//! opened and closed, which call of `intake_process` does the task, and how a fault is reported. What
//! the bytes and the rows mean is not known here.
#![tactic(auto)]

mod asked;
mod clocked;
mod connection_line;
mod fault;
mod folder;
mod limit;
mod log_message;
mod options;
mod pause;
mod program;
mod progress;
mod published;
mod record;
mod reported_fault;
mod reporter;
mod running;
mod serving;
mod sockets;
mod tasks;
mod visiting;

pub use fault::NotDone;
pub use folder::PageFault;
pub use options::{Serving, Task};
pub use program::main;
