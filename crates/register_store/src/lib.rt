//! A register that is open: requests are kept in its tables, found and listed. What may live here: what is read and
//! written of an open register. How its tables are made and opened is known by `register_tables`; requests, outcomes
//! and numbers are those of `filing_model`; who is answered what is not known here.
#![tactic(auto)]

mod catalogue;
mod columns;
mod decode;
mod kept_body;
pub mod laws;
mod outcome;
mod rows;
mod select;
mod store;
mod write;

pub use filing_model::{Completed, Outcome, Registered};
pub use kept_body::KeptBody;
pub use outcome::{KeptRow, NewRow};
pub use register_rows::Moment;
pub use register_tables::{
    Counts, CreateFault, Earlier, OpenFault, Unwatched, Watch, make_register, migrate_register,
    read_register,
};
pub use store::Store;
pub use table_rows::StoreFault;
