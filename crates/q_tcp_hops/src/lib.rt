//! Connections over TCP, none of which waits for another: a connect, a read or a write that would
//! wait answers at once, and a rest waits until any link is ready, ten milliseconds at most. A call
//! that couldn't go on answers the same without the system until a rest hears of its link.
//!
//! What is proved: each answer is one that a link may give, and every count and state follows from
//! the answers. That the bytes are those of the connection to the hop's address, that a rest ends
//! when a link is ready, and that a closed connection is given back, rests on the system and on
//! `mio`. So these links, hops and doors tell nothing of what came and went.
//!
//! As many connections to next hops are open at once as descriptors may be, less some that are kept for the
//! spool; one beyond counts as failed (`crowded_out`).
//!
//! A connect only begins: that a hop refuses is told by the first read or write, as a failure of
//! its link.
//!
//! A door takes a port of 127.0.0.1, at which clients connect. An accept waits until one is there. Its
//! links read ahead, so that a reader may take one byte at a time.
//!
//! It is an error to read into an empty buffer, to write no bytes, to rest for a link that doesn't
//! wait, and to accept at a door that isn't bound.
#![tactic(auto)]

mod ahead;
mod buffered_link;
mod descriptors;
mod door;
mod hops;
mod link;
mod link_wait;
mod readiness;
mod watch;

pub use buffered_link::BufferedLink;
pub use door::TcpDoor;
pub use hops::TcpHops;
pub use link::TcpLink;
