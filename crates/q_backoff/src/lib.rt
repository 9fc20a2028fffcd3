//! When a deferred message is due again, and when a message is given up (postconf(5):
//! minimal_backoff_time, maximal_backoff_time, maximal_queue_lifetime, bounce_queue_lifetime).
#![tactic(auto)]

mod times;

pub use times::{due, expired};
