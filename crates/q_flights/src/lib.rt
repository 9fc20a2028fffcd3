//! The deliveries in flight, in the order in which they began, each found by its number, and how
//! many there are at each transport. Numbers rise from one delivery to the next, so no two have
//! one number, and the first has the least.
//!
//! A delivery comes behind all others, and leaves from anywhere. Each call costs the same, however
//! many there are: numbers that follow one another fall in buckets of their own
//! (`q_keyed::Keyed`), as long as those in flight don't lie farther apart than there is room.
//!
//! Room is made once, by `new`, for the positions of each delivery too (`q_positions::Lists`); no
//! other call takes memory or can fail, and a delivery is lent as it stands there. It is an error
//! to make it without room, for 2^30 deliveries and more or for more than 1024 positions in one,
//! and to add a delivery where there is no room for it or for its positions or where its number
//! isn't above all others. It is none to ask for a number that isn't in flight: the answer is None;
//! nor to remove it: nothing goes.
#![tactic(auto)]

mod counts;
mod delivery_head;
mod delivery_ref;
mod flights;

pub use delivery_ref::DeliveryRef;
pub use flights::Flights;
