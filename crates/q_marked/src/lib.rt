//! Numbers in an order, of which some are marked: which is the first of these is known at once. It is
//! for rows in the order in which they came, of which those are marked that can't be sent.
//!
//! A number comes behind all others, marked or not. It is marked or unmarked later, and leaves from
//! anywhere. What a call costs grows with the logarithm of the count of numbers, but for the very
//! rare one that ranks the whole order anew (`q_ranks`): it walks along all numbers.
//!
//! The numbers are those below a limit, and each stands in the order once at most. What it names is
//! the caller's. All room is made by `new`: no other call takes memory, and none can fail. It is an
//! error to call with a number that isn't below the limit, and to add one that stands in the order.
//! It is none to mark, unmark or remove one that doesn't: nothing happens.
#![tactic(auto)]

mod marked;
mod marking;

pub use marked::Marked;
