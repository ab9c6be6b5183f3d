//! The outbox that lies in a place: it is opened, made or migrated, an errand is done on it, and it is closed. What may
//! live here: what meets a store in files, and what a task does and prints (`tasks`), on a connection of its own for
//! each entry. What is reported of a refusal is the caller's.
#![tactic(auto)]

mod beginning;
mod errand;
mod fault;
mod process;
mod target;
mod tasks;

pub use beginning::Beginning;
pub use errand::{Done, Errand, Which};
pub use fault::{NotOpened, Why};
pub use finding_lines::Form;
pub use process::OutboxProcess;
pub use target::Target;
pub use tasks::asking::ask;
pub use tasks::dial::Dial;
pub use tasks::memory::{Finished, Replies};
pub use tasks::putting::put;
pub use tasks::rounds::{Round, send_all};
pub use tasks::sending::{send_entry, send_next};
pub use tasks::showing::{show_body, show_each, show_entry, show_states};
