//! Files of the system of which it is supposed what they held as they were opened. What may live here: what each
//! opening of a program finds, which only clauses read, a disk over that, and the record of the calls on a file. Of
//! what a file is used for it knows nothing.
#![tactic(auto)]

mod calls;
mod file;
mod openings;
mod record;

pub use calls::NotedFile;
pub use file::FoundFile;
pub use openings::{Found, Openings};
pub use record::{CUT, FLUSHED, MEASURED, READ, Record, SETTLED, TESTED, WRITTEN};
