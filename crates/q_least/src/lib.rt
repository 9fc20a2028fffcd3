//! The least of many keys, by number. Each number below a count has a key, and the first number
//! with the least key is known without a walk over all of them: the message that waits longest, or
//! the site that comes back first. So is the first number whose key is at most a bound.
//!
//! Each number stands with its key behind the inner places of a tree in one array, and each inner
//! place has the lesser of the two places below it, of equal ones the lesser number. So a changed
//! key is carried up from its place, in steps as many as the count has bits, and the least one
//! stands at the top. The numbers are rounded up to a power of two, and those behind the count
//! never get a key: so all stand equally deep, and in order, and a way down the tree comes to the
//! first one within a bound. Room is made once, 32 bytes for each number of the power of two, so
//! below 64 bytes for each of the count; no call but `new` takes memory, and no other can fail.
//!
//! A key is any number of 64 bits, as a moment or a place in an order. The greatest, `Least::NONE`,
//! is for a number that has none. It is an error to make keys for no number at all, and to name a
//! number that isn't below the count.
#![tactic(auto)]

mod least;
mod making;
mod tree;
mod within;

pub use least::Least;
