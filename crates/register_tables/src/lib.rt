//! A register's tables are made, opened and migrated. What may live here: the texts that declare the tables, and what
//! is read and written before a register is open. What the rows stand for is known by `register_rows`.
#![tactic(auto)]

mod fault;
mod migrate;
mod opening;
mod schema;
mod select;

pub use fault::{CreateFault, OpenFault};
pub use migrate::migrate_register;
pub use opening::form::Earlier;
pub use opening::watch::{Unwatched, Watch};
pub use opening::{Counts, read_register};
pub use schema::create::make_register;
pub use select::reads::{amends_rows, kept_rows, received_rows};
