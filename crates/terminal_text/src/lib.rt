//! Texts from outside on a terminal or in a log. What may live here: which characters are not written as they are, and
//! what is written for them. What a text is about is not known here.
#![tactic(auto)]

mod character;
mod text;

pub use text::{OneLine, one_line};
