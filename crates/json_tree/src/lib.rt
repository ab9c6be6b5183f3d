//! JSON as a tree that borrows its texts.
//!
//! What a tree means is stated in the words of `serde_json`: `read_tree` gives the value that `serde_json` reads from a
//! text, and `specs/View.antt` says which value a tree stands for. What may live here: reading, looking into and
//! writing a tree, whatever it is about.
#![tactic(auto)]

mod number;
mod order;
mod reading;
mod tree;
mod writing;

pub use reading::{Unread, read_tree};
pub use tree::{Member, Tree};
