//! Telling text while no file changes.
//!
//! It is no error to tell any bytes. What was told of a text before a fault is some first part of it.
#![tactic(auto)]

mod telling;

pub use telling::tell_text;
