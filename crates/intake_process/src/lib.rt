//! The intake of a register that lies in a place: it is opened, serves connections, does an errand, and is closed, and
//! if the database refuses a call it is opened again before the next connection. What may live here: what meets a store
//! in files, in which order a port is served, and what a task prints (`tasks`). What a program reports of that, and how
//! long it waits before an opening, is the caller's.
#![tactic(auto)]

mod beginning;
mod errand;
mod fault;
mod observer;
mod process;
mod serving;
mod tasks;
mod turning;
mod visiting;

pub use beginning::Totals;
pub use fault::Refusal;
pub use observer::{Observer, Went};
pub use process::{Answered, AnsweredBy, Closed, IntakeProcess};
pub use serving::{ServingFault, serve_port, serve_register};
pub use tasks::checking::CheckProgress;
pub use tasks::errand::{Errand, Published, Question};
pub use tasks::running::run;
pub use turning::turn_away;
pub use visiting::Visited;
