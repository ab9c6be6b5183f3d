//! The commands of `outbox`: it keeps the reports that a filer is to send, and sends them. What may live here: how the
//! outbox and the network of a task are made, which errand the task is, what is printed beside its own lines, and how a
//! fault is reported. What the bytes and the rows mean is not known here, nor how files are opened.
#![tactic(auto)]

mod answer;
mod asked;
mod errand;
mod fault;
mod held;
mod network;
mod options;
mod putting;
mod tasks;
mod written;

pub use fault::NotDone;
pub use options::{Peer, Task};
pub use putting::ReportFile;
pub use tasks::{main, perform};
