//! A queue with room that is made once: first in, first out, as outcomes wait until they are on
//! disk. Items come behind all others and leave from the front, and the one in front may be
//! replaced where it stands.
//!
//! Each call takes the same time, however many items there are, for they stand in a ring
//! (`VecDeque`) and none of them moves.
//!
//! Room is made once, by `new`; no other call takes memory or can fail. It is an error to make it
//! for 2^30 items and more, and to add an item where there is no room: `spare` tells how many more
//! have it. It is none to take from a queue that is empty, where the answer is None, or to replace
//! its first, which does nothing.
#![tactic(auto)]

mod queue;

pub use queue::Queue;
