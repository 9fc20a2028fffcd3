//! One intake life that takes mail by SMTP (RFC 5321), connection after connection.
//!
//! A turn reads the clock, tells the moment where it is the first or past those before it, and polls
//! the open session once. A message that came is told before it is acknowledged. Each link is closed
//! when its session is over, and before a refusal is answered.
#![tactic(auto)]

mod fault;
mod hearing;
mod listened;
mod listening;
mod polling;
mod serving;

pub use listened::{ListenError, Listened};
pub use listening::listen;
