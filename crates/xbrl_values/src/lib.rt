//! The texts of a report's values, each judged by itself: names and entities, periods, units, numbers, languages; and
//! the JSON Pointers that name places in a report. What may live here: what one text alone shows. JSON, the rest of a
//! report and findings are not known here.
#![tactic(auto)]

mod language;
mod name;
mod number;
mod period;
pub mod pointer;
mod unit;

pub use language::is_language;
pub use name::{split_entity, split_qname};
pub use number::is_number;
pub use period::{Period, is_backward, read_period, split_at_slash};
pub use unit::{Unit, is_unit, measure_prefix, read_unit, without_parentheses};
