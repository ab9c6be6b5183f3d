//! An outbox's tables are made, read and migrated. What may live here: how the three tables are declared, which rows
//! stand for which entries, the texts that make the tables or read them whole, and what is read and written before an
//! outbox is open. What is done with an open outbox is not known here.
#![tactic(auto)]

pub mod columns;
mod fault;
mod migrate;
mod opening;
mod rows;
mod schema;

pub use fault::OutboxFault;
pub use migrate::migrate_outbox;
pub use opening::{FoundOutbox, read_outbox};
pub use rows::MAX_ENTRIES;
pub use schema::create::make_outbox;
