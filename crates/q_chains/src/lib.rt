//! Lists of numbers, such as a queue or a line that others leave from the middle, in room that is
//! made once: after `new` no call wants memory. Each takes constant time, however long the lists
//! are: adding at the end, adding before another number, removal from the middle, and looking up
//! the neighbours of a number.
//!
//! The numbers are those below a limit, and each stands in one list at most, and once. What it
//! names is the caller's, who keeps it under that number. It is an error to call with a list or a
//! number that there isn't, to add a number that stands in a list, to add before one that stands in
//! none, and to ask for the neighbours of such a one. To remove it is none, and does nothing.
#![tactic(auto)]

mod chains;
mod links;

pub use chains::Chains;
