//! Tickets in one order, found by search, in room that is made once: of each next hop the messages
//! that could be sent there, by the time of their arrival. A ticket is of a group, with a key and
//! the number of an item, and tickets go by group, then by key, then by item. The first of a group
//! is found without a walk over them, and so are the first ticket that doesn't go before another
//! one and the first behind it, whether that one stands there or not.
//!
//! Tickets stand in blocks of at most 64. A look is a search among the blocks, and one in a block.
//! A ticket that comes or goes moves those behind it in its block. A block that comes to have more
//! is parted in two halves, and one that comes to have fewer than 28 is united with the one before
//! it. That moves the places of the blocks behind it too, and comes no oftener than once in four
//! calls or so. As all blocks but the first have 28 tickets or more, there are never more than
//! were made.
//!
//! Room is made once, by `new`, below 110 bytes for each ticket and some 7000 beside; no other call
//! takes memory or can fail. It is an error to make it without room or for 2^30 tickets and more,
//! and to put a ticket where there is no room. It is none to put one that is there, or to take out
//! one that isn't: then nothing happens.
#![tactic(auto)]

mod block;
mod blocks;
mod sorted;
mod ticket;

pub use sorted::Sorted;
pub use ticket::Ticket;
