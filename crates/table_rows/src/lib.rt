//! What one statement on one table does, said of rows as `SELECT *` shows them. What may live here: the refusals of
//! `sqlite` by their cause, how a call on a store's rows is refused, a statement inside a transaction, a list of
//! statements in one transaction, the rows of a query, its first row, a count of rows, and what holds of every table
//! that a store declares. It knows no table of ours, no text of SQL and no meaning of a row.
#![tactic(auto)]

mod cause;
mod count;
mod fault;
mod first;
mod query;
mod settled;
mod statement;
mod statements;

pub use cause::Cause;
pub use count::count_in;
pub use fault::StoreFault;
pub use first::first_row;
pub use query::select;
pub use settled::is_settled;
pub use statement::run;
pub use statements::{Statement, write_all};
