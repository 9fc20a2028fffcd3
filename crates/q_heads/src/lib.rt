//! Tickets in lanes, and the first of each lane, its head. A lane is of a class, and the heads of a
//! class stand in order over all its lanes. It is for jobs of messages that wait at next hops: a
//! lane is a next hop, its class the transport, and the key the job's rank in the transport's line.
//! The first job that can be sent is found in a walk along the heads, by `first` and then `behind`,
//! that passes only next hops that are full, and of each of them one job. Where that one job isn't
//! wanted, `behind_in_lane` gives the one behind it.
//!
//! In a lane tickets go by key, then by item, and heads go by key, then by lane. Each call costs a
//! few searches among all tickets and among the heads. A ticket that comes or goes moves its lane's
//! place among the heads only where the head's key changes; a lane that gets another class goes over
//! to the heads of that. To walk on, a head is asked for by key and lane, so it may have gone
//! meanwhile.
//!
//! Room is made once, by `new`, below 170 bytes for each ticket, 180 for each lane and some 10,000
//! beside; no other call takes memory or can fail. It is an error to make it without room or lanes,
//! or for 2^30 of either and more, and to put a ticket where there is no room or into a lane that
//! there isn't. It is one to give a class to a lane that there isn't, and to ask what is behind a
//! ticket of a lane that there isn't. It is none to put a ticket that is there, or to take out one
//! that isn't: then nothing happens. Nor is it to ask for the first of a lane or of a class that has
//! none, also where there isn't such a one: then the answer is None.
#![tactic(auto)]

mod heads;
mod marks;

pub use heads::Heads;
