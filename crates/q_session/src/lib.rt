//! One delivery of a message by SMTP (RFC 5321). A session is polled and never waits: each poll
//! sends what is due and reads what came, until the link answers that it isn't ready.
//!
//! It is an error to poll a session that is over, to poll it over another link than before, or over
//! one that has ended or failed; where the host tells its files, the message's file has to say the
//! same at each poll, but for marks.
#![tactic(auto)]

mod content;
mod delivery;
mod dialogue;
mod inbox;
mod outbox;
mod outcomes;
mod polled;
mod session;
mod steps;

pub use polled::Polled;
pub use session::Session;
