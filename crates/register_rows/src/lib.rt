//! What the rows of a register's tables stand for. What may live here: how the tables are declared, the rows that a
//! kept request puts into each, and whether rows that were read are those of one. No statement is known
//! here.
#![tactic(auto)]

mod catalogue;
mod cells;
pub mod columns;
mod dates;
mod filed;
mod items;
mod kept_row;
mod laws;
mod moment;
mod segments;
mod values;

pub use catalogue::{Catalogue, Line};
pub use cells::{Cell, is_row};
pub use dates::Dates;
pub use filed::Filed;
pub use items::RowItem;
pub use kept_row::{filer_of, is_kept_row};
pub use laws::there_is_one_list_of_moments;
pub use moment::Moment;
pub use segments::{after_items, has_target, target_of};
pub use values::{bytes_at, number_at, text_at};
