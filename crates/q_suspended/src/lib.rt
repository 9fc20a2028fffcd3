//! Sites that are suspended, each until a moment, as a destination is for the time of
//! default_destination_rate_delay (postconf(5)): a walk over sites that may be sent to needn't pass
//! them. A site is found by its name, and of those whose moment has come the first that was
//! suspended, none of it by a walk.
//!
//! It is for parts that keep sites in an order of their own, and asks nothing of what is known of
//! a site: who suspends one says until when, and resumes it.
//!
//! Room is made once, by `new`, below 400 bytes for each site; no other call takes memory or can
//! fail. It is an error to make it without room or for 2^30 sites and more, and to add a site that
//! is there or for which there is no room. It is none to take out a site that isn't there: then
//! nothing happens.
#![tactic(auto)]

mod suspended;
mod suspension;

pub use suspended::Suspended;
pub use suspension::Suspension;
