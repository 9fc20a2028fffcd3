//! Connections to SMTP servers, and the hops that open them. One thread serves many links: a read
//! or a write that would wait answers so at once.
//!
//! A contract sees of a link how often it failed, whether it waits, whether it ended, whether it was
//! read or written on behind its end or a failure, and, where it tells, what came and went over it; of
//! the hops their counts and, where they tell, a record for
//! each link that was closed. Links in memory, which follow scripts, tell; a system's can't.
//!
//! It is an error to read into an empty buffer, to write no bytes, and to rest for a link that
//! doesn't wait.
#![tactic(auto)]

mod closed_link;
mod hops;
mod link;
mod link_wait;
mod piece;
mod route;
mod script;
mod script_hops;
mod script_link;
mod usage;

pub use hops::{Hops, NoLink};
pub use link::{Got, Link, Put};
pub use route::address_of;
pub use script_hops::ScriptHops;
pub use script_link::ScriptLink;
pub use usage::Usage;
