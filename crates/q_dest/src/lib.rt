//! The sites that a queue manager sends to, which qmgr(8) calls destinations: of each what is known
//! of it (SCHEDULER_README: its concurrency window, its feedback, and until when it is dead), how
//! many rows wait for it, and how many deliveries to it are in flight. A site is found by its
//! transport and next hop. The first is known of those whose time has come, of the dead ones and of
//! those that are only remembered, and how many there are that are dead; no call walks over all.
//!
//! A site is known from its first row on. Where it is alive, it is forgotten with the last row and
//! the last delivery. Where it is dead it goes behind all others then, and is remembered. A site
//! dies by a delivery that is in flight. So the first of the dead sites that are unused is the one
//! that has been so for the longest time, and is forgotten first.
//!
//! Room is made once, by `new`; no other call takes memory or can fail. It is an error to make
//! sites without room or for 2^30 and more, to let a row come where there is no room, and to let a
//! site hear of a delivery that isn't in flight. To change one that isn't there is none, and does
//! nothing.
#![tactic(auto)]

mod counting;
mod dest;
mod events;
mod moving;
mod revival;
mod site_record;
mod sites;
mod table;
mod window;

pub use dest::Dest;
pub use site_record::WideSiteRecord;
pub use sites::Sites;
