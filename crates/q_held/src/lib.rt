//! The rows that wait, in the order in which they came, of which some are held back: those that
//! can't be sent now, since their site is dead. The first of these is known at once, without a walk
//! over the others. A site that dies or comes back costs a walk along its own rows, and none along
//! all.
//!
//! A row has a number while it waits, and is found and leaves as in `q_peers`. It comes held back
//! or not. Later it is held back or let go with all rows to its site, or let go with all rows. What
//! a call costs besides grows with the logarithm of the count of rows, but for the very rare one
//! that ranks them anew (`q_ranks`): it walks along all rows.
//!
//! Room is made once, by `new`; no other call takes memory or can fail. It is an error to make it
//! without room, for 2^30 rows and more or for more than 1024 positions in a row, and to add a row
//! where there is no room for it or for its positions. It is none to ask for a number that no row
//! has: the answer is None; nor to remove it, or to hold back or let go a site to which no row
//! goes: nothing happens.
#![tactic(auto)]

mod finding;
mod holding;
mod rows;

pub use rows::Rows;
