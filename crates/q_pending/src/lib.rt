//! The pending recipients of a message, read from its queue file and its failure log: those whose
//! mark isn't set and whose position has no record in the log.
//!
//! The file is read in pieces, 256 recipients at a time. A reader changes nothing. It is an error to
//! change the files of the message while it is read, and to go on after an error of its own.
#![tactic(auto)]

mod pending;

pub use pending::Pending;
