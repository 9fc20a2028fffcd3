//! Items in an order, each found by its key and named by a number that stays. Items come at the
//! end or before another, leave from anywhere, and move to the end; each call costs the same,
//! however many there are, but for the keys that fall in one bucket. So a line of jobs, a list of
//! sites or deliveries in flight needs no search.
//!
//! No two items have one key. A number is an item's own while it stands; the number of one that
//! went is given again. The numbers are chained in the order of the items, and once more in
//! buckets by key, as many as items have room.
//!
//! Room is made once, by `new`; no other call takes memory or can fail. It is an error to make it
//! without room or for 2^30 items and more, to add an item where there is no room or where one has
//! its key, to add before a number that no item has, and to put an item of another key under a
//! number. It is none to ask for a number that no item has, to remove it or to move it: the answer
//! is None, or nothing happens.
#![tactic(auto)]

mod finding;
mod key;
mod keyed;
mod slots;

pub use key::HasKey;
pub use keyed::Keyed;
