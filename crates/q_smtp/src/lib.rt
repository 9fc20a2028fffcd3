//! What an SMTP client and a server say to one another (RFC 5321).
//!
//! The definitions stand in `specs`: replies cut out of bytes, the lines of a content as they are
//! sent, the dialogue as it hears one code after another, and the whole lists of codes that settle
//! a delivery. The laws between them are the contracts of functions with nothing to do; no call of
//! one is an error.
#![tactic(auto)]

mod laws;

pub use laws::whole_lists;
