//! One request decided: look it up, judge it, add it, answer it (`intake`); and its answer, remembered for a repeat
//! (`cache`, `request`), with the line that shows a fact (`fact_lines`). What may live here: the decision, and the last
//! answers. How a request came, and what lies under the register, are not known here; the bytes of a reply are those of
//! `filing_model`.
#![tactic(auto)]

mod cache;
mod fact_lines;
mod intake;
mod memory;
mod request;

pub use cache::{Cache, answer_by, name_of};
pub use fact_lines::fact_line;
pub use filing_model::{Answer, FilingRow, Style, list_reply, reply_of, word_reply};
pub use intake::{Intake, Looked, Unavailable};
pub use register_store::Moment;
pub use request::Request;
