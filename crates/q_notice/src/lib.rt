//! The content of bounces: which recipients of a message failed and why, for its sender
//! (bounce(8)).
//!
//! A notice is made of what is known of the message without its file: its failures, the addresses
//! of their recipients, each with the one that the sender wrote where that is another, and the front
//! of its content. It is an error to give other than one recipient for each failure, or more than
//! 50,000 bytes of the front.
#![tactic(auto)]

mod content;
mod failures;
mod lines;

pub use content::notice;
