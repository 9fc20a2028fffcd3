//! One message, shown: its line of the listing, a line for each of its recipients with how it
//! stands, an empty line and its content.
//!
//! Nothing is changed and no life is begun, so a message may be shown at any time. The file is
//! found by its name, and no other message is read.
#![tactic(auto)]

mod content;
mod finding;
mod lines;
mod show;
mod states;

pub use show::tell_message;
