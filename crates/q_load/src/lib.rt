//! A generated load: mails that a number makes, and replies to what they lead to, on a host in memory.
//!
//! So many mails come, and behind each a reply to the delivery in flight that has the least number;
//! behind the last all are replied to. Every tenth reply puts its recipients off. While a message is
//! left, the clock goes on by 4,000 seconds, 200 times at most, and what begins then is replied to.
//! The same number of mails always leads to the same events, and so to the same run and summary.
#![tactic(auto)]

mod generator;
mod loading;
mod mails;
mod numbers;
mod remaining;
mod replies;
mod summary;
mod unfailing_host;

ghost use Rattle.q_load.specs.Loads.{HasOneSummary};

pub use loading::load;
pub use summary::Summary;

/// A load of so many mails has one summary at most: its events, and with them its run, are settled by
/// their number.
pub fn has_one_summary()
    ensures { HasOneSummary }
{}
