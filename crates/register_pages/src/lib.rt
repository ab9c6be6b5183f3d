//! A register as pages of HTML. What may live here: which pages there are, what each shows, and how a text is written
//! so that a browser reads that text and no tag (`escaping`, `short`, `piece`). No file and no words of a command line
//! are known here.
#![tactic(auto)]

mod about;
mod chart;
mod escaping;
mod fault;
mod filer;
mod filers;
mod filing;
mod folder;
mod found;
mod frame;
mod gathering;
mod names;
mod others;
mod own;
mod parts;
mod piece;
mod reads;
mod refused;
mod reports;
mod short;
mod site;
mod words;

pub use folder::{Folder, NotWritten};
pub use piece::Markup;
pub use site::write_pages;
