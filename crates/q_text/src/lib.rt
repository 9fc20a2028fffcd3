//! Texts of lines, read: blanks, lines, and the values that stand as words in event lists and
//! traces. Each is read here alone, so that files, event lists and traces agree on what a line, a
//! list or an outcome is.
//!
//! Nothing here is an error to call: a text that isn't of a form gives `None`, and a list gives
//! `NoMemory` where memory runs out.
#![tactic(auto)]

mod blanks;
mod lines;
mod lists;
mod values;

pub use blanks::{is_blank, is_passed_over, is_text, trim, trim_start};
pub use lines::first_line;
pub use lists::{read_addresses, read_outcomes, read_positions, read_receivers};
pub use values::{read_outcome, read_plain, read_receiver, read_sender, read_state, read_trigger};
