//! Decimal numbers in texts, and the pieces of a text between the bytes that divide it.
//!
//! Nothing here is an error to call: a text that isn't of a form gives `None`.
#![tactic(auto)]

mod numbers;
mod pieces;

pub use numbers::{read_number, read_number32};
pub use pieces::{cut, first_word};
