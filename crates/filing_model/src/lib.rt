//! What a register is, as a function of a list of requests, and what is answered on a connection. What may live here:
//! the definitions that the layers above cite, their laws, the types of requests, outcomes, answers, lists, marks,
//! styles and the states of entries, the statuses and contents of replies, which numbers a report may name, and the
//! limits of a register.
#![tactic(auto)]

mod answer;
mod completed;
mod content;
pub mod laws;
mod limits;
mod listing;
mod outcome;
mod reply;
mod served;
mod state;
mod target;

pub use answer::Answer;
pub use completed::{Completed, Registered};
pub use limits::{MAX_FILING_NUMBER, MAX_KEPT};
pub use listing::FilingRow;
pub use outcome::Outcome;
pub use reply::{list_reply, reply_of, word_reply};
pub use served::{Ended, Mark, Style};
pub use state::State;
pub use target::is_target;
