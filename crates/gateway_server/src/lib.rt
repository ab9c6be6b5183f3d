//! The connection of an intake: what it writes is a function of what it read. What may live here: the order of reading,
//! deciding and writing, also of what several connections ask to file, what it means that connections are served in
//! turn, and laws about that (`laws`).
#![tactic(auto)]

mod answer;
mod decide;
mod group;
pub mod laws;
mod serving;
mod stop;

pub use answer::refusal_reply;
pub use decide::{Decided, decide_route, decided_by};
pub use filing_model::{Ended, Mark};
pub use gateway_requests::completed;
pub use group::file_all;
pub use intake_core::fact_line;
pub use serving::{Partly, Served, serve, serve_until};
pub use stop::Stop;
