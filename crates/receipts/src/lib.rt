//! What a filer keeps of a reply that settled an entry: a receipt of what was sent, what came back, and when, as a JSON
//! text in a file. What may live here: the text, of which exchange there is one, and how it is written whole under its
//! name. No clock or port is known here, and of an outbox only what a reply says of an entry.
#![tactic(auto)]

mod fault;
mod folder;
mod moment;
mod name;
mod receipt;
mod sent;
mod text;

pub use fault::ReceiptFault;
pub use folder::ReceiptFolder;
pub use receipt::{Exchange, Receipt, receipt_of};
