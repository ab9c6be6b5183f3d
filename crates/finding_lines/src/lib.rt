//! How findings are reported to people and to programs: a line for each. What may live here: the words for findings,
//! and tasks on reports in files that need neither a register nor an outbox (`linting`). No words of a command line are
//! known here.
#![tactic(auto)]

mod form;
mod linting;
mod message;
mod object;
mod sentence;
mod syntax_fault;
mod telling;
mod text;

pub use form::Form;
pub use linting::lint_reports;
pub use telling::lines;
pub use terminal_text::one_line;
