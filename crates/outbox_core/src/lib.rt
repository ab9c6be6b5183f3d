//! The outbox of a filer: the reports that are to be sent, and what is known of each. What may live here: the
//! statements on some rows of an open outbox, how a reply moves an entry and what it says of one that is settled, and
//! the calls on an outbox. How its tables are made and opened is known by `outbox_tables`, and SQL to `rows` alone.
#![tactic(auto)]

mod columns;
mod entries;
mod entry;
mod fault;
mod key;
mod outbox;
mod rows;
mod state;
mod write;

pub use entry::Entry;
pub use fault::{PutFault, TakeFault};
pub use filing_model::State;
pub use key::key_of;
pub use outbox::Outbox;
pub use outbox_tables::{FoundOutbox, OutboxFault, make_outbox, migrate_outbox, read_outbox};
pub use state::{Said, has_word, said_of};
pub use table_rows::StoreFault;
