//! The findings and the facts of an xBRL-JSON report.
//!
//! `judge` reads a body and answers that it is a valid report, with its facts, or lists everything that is wrong with
//! it: each place, as a JSON Pointer, with a code. `specs/Finding.antt` says what each code means. What may live here:
//! what one report alone shows, with no taxonomy and no other report. `xbrl_values` knows what one of its texts says by
//! itself.
#![tactic(auto)]

mod code;
mod context;
mod dimension_rules;
mod dimensions;
mod document;
mod fact;
mod facts;
mod finding;
mod findings;
mod found;
mod judging;
mod kind;
pub mod laws;
mod report;
mod walk;

pub use code::Code;
pub use fact::Fact;
pub use finding::Finding;
pub use findings::Findings;
pub use judging::{Judged, judge, judge_amendment};
pub use report::Report;
pub use xbrl_values::{Period, Unit, read_period, read_unit, split_entity, split_qname};
