//! Where in the bytes of a JSON text the value is that a JSON Pointer names.
//!
//! `places` answers an offset, a line and a column for each pointer, and `value_text` shows a value. What may live
//! here: where something stands in a JSON text, whatever it means.
#![tactic(auto)]

mod children;
mod entries;
mod index;
pub mod laws;
mod lead;
mod mode;
mod part;
mod place;
mod position;
mod shown;
mod spot;
mod tape;

pub use place::{ValuePlace, places};
pub use position::{Position, position_of};
pub use shown::{value_text, whole_value};
