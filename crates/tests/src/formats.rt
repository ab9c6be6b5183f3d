//! What is read and written as bytes or as a text, over no table and no file.

mod devices;
mod facts;
mod findings;
mod places;
mod rows;
mod whole;
