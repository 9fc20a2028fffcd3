//! Lines of a text, from a source that gives its bytes in pieces, to its end.
#![tactic(auto)]

mod line_reader;

pub use line_reader::{LineError, LineReader, NextLine};
