//! The delivery agent: SMTP sessions (RFC 5321) by the numbers of their deliveries, polled in
//! sweeps, with one report for each request.
//!
//! A sweep polls each open session once, in order of their numbers, by one call for each. A request
//! for which no connection comes about is reported too, at the poll of its session: its site is
//! down, and its recipients are put off.
//!
//! It is an error to ask for a number that is open; and where the host tells its files, to ask for
//! a delivery without its message's queue file in active, for a position that the file doesn't
//! have, or to poll a session whose file is no longer there.
#![tactic(auto)]

mod agent;
mod delivery_session;
mod opening;
mod reading;
mod report;
mod slot;

pub use agent::Agent;
pub use report::{Report, Request};
