//! Replaying an event list: lives on a spool, one after another, that take the events of the list
//! and tell each decision.
//!
//! A life begins before the list is read, as at a `restart`; `end` ends the last one. Each event is
//! taken with all decisions that follow it before the next line is read, so what was told before a
//! refusal stands on disk.
//!
//! It is an error to give a list with a line that breaks the form of event lists, or whose event
//! doesn't fit what went before: the line is named, and what the lines before it led to stands.
#![tactic(auto)]

mod deliveries;
mod error;
mod intake;
mod letters;
mod lists;
mod promises;
mod taking;

pub use deliveries::{Delivered, deliver};
pub use error::ReplayError;
pub use intake::intake_params;
pub use letters::{Letter, submit};
pub use lists::replay;
pub use promises::promises_hold;
pub use taking::{begin_life, end, hear};
