//! The peers of all messages, and of each job the peer that is sent to next. A peer is a message at
//! a site for which rows of it wait, and a job is a message at a transport, of which rows wait at
//! any of its sites (SCHEDULER_README, "Preemptive scheduling"). The sites of a job take turns: one
//! that the message was never sent to goes first, then the one that it was sent to longest ago. So
//! no site of a job waits for the rows of another one.
//!
//! No call walks over all peers, and none but `next_for` over those of a job. Each job with peers
//! has a round, which counts its rows. The peers of a round that were never sent to stand in a list
//! in the order in which they came, and the others in the order of their last deliveries.
//! `next_for` goes along the one and then the other, and each peer that it passes is at a site that
//! is full or dead. Each other call takes a few searches.
//!
//! Room is made once, by `new`; no other call takes memory or can fail. It is an error to add a
//! peer where there is no room or where one is of the same message and site, to start two peers
//! with one number or one with 0, to let a peer have 2^32 rows, and to lose the last of them: then
//! the peer is removed. It is none to ask for, change or remove a peer that isn't there.
#![tactic(auto)]

mod asking;
mod changing;
mod counting;
mod listing;
mod peer;
mod round;
mod rounds;
mod walking;

pub use peer::{Peer, PeerKey};
pub use rounds::Rounds;
