//! The lines of a trace: how each entry is written, and which entry a line is, both against the
//! table that names the transports.
//!
//! A trace is what can be checked of a life from outside, so a line says its whole entry, but for
//! the bytes of an arrived content, and no two entries within the bounds of a trace share a line.
//! Any entry can be written; one whose values are out of these bounds may have a line that isn't
//! read back.
#![tactic(auto)]

mod bodies;
mod error;
mod fields;
mod kind;
mod line;
mod lists;
mod part_texts;
mod parts;
mod reading;
mod writing;

pub use error::EntryError;
pub use reading::read_entry;
pub use writing::entry_text;
