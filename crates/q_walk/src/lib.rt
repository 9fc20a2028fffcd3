//! Walks over the messages of queues, in the order of a listing: incoming, active, deferred and
//! hold, and in each by the bytes of the files' names. Each message comes once, with the head of its
//! queue file; names of another form and files that are no queue files are passed over.
//!
//! A walk changes nothing. It lists 64 names at a time, and reads of each file all but the content.
//! A message whose file another process moves meanwhile may come twice, or not at all. It is an
//! error to go on with a walk after an error of its own.
#![tactic(auto)]

mod queue;
mod walk;

pub use walk::{Found, Walk};
