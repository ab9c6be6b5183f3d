//! What is read out of a register that stands, request by request, and changes nothing in it: the moment at which a
//! request was received (`at`, `reads`, `text`), the export of all facts (`walk`, `facts`, `records`, `writing`), and
//! the digest of all that is kept (`digest`, `register`, `row`). What may live here: these reads, and the texts that
//! come of them. What a moment is, and which rows have it, is known by `register_rows`. No file, no page and no words
//! of a command line are known here.
#![tactic(auto)]

mod at;
mod digest;
mod digest_reads;
pub mod facts;
mod fault;
mod kept;
mod laws;
mod reads;
mod records;
mod register;
mod row;
mod text;
mod walk;
mod writing;

pub use at::moment_at;
pub use digest::Digest;
pub use facts::record::{FactForm, FilingHead, first_line, record_text};
pub use fault::Why;
pub use laws::{
    a_beginning_keeps_its_digest, a_digest_tells_the_requests, a_digest_tells_the_rows,
    a_row_adds_one_step, joined_texts_tell_the_rows, texts_tell_the_rows,
};
pub use records::Wanted;
pub use register::{digest_register, first_digest};
pub use register_rows::Moment;
pub use row::Row;
pub use text::moment_text;
pub use walk::filing::{WholeFiling, filing_at};
pub use walk::kept_report::{KeptReport, sent_at};
pub use writing::export;

#[cfg(test)]
mod tests;
