//! How much a reply opens or narrows the concurrency window of a site (SCHEDULER_README,
//! "Concurrency scheduling"), in whole units, so that no fraction is rounded: windows are at most
//! 40, and a unit is one part of the least common multiple of 1 to 40.
//!
//! It is an error to ask `amount` for a window that isn't 1 to 40, and to let a `Sum` leave 400
//! times that multiple either way.
#![tactic(auto)]

mod feedback;
mod sum;

pub use feedback::Feedback;
pub use sum::Sum;
