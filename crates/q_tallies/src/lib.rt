//! How many deliveries went before each preempted job, of jobs that preempted it, directly or through
//! others: counted entry by entry, with no entry kept.
#![tactic(auto)]

mod laws;
mod tally;
mod ways;

pub use laws::{count_is_bounded, count_is_whole, tally_is_exact, tally_may_begin_later};
pub use tally::{Tally, Way};
