//! Numbers in an order in which two places are compared at once: each number in the order has a
//! rank, and ranks rise along it. It is for jobs in a line that come at its end, or before another
//! one that they preempt, and leave it from anywhere.
//!
//! Where no rank is left for a new number, all in the order are ranked anew, in a walk along it, and
//! the call says so, to a caller that keeps ranks elsewhere. All other work takes constant time. The
//! walk comes seldom, since ranks stand 2^32 apart at first and are below 2^63. At the end it comes
//! once in two thousand million calls, less one for each number in the order. Before another number
//! the new one takes a rank low between its neighbours, a 1024th of the way up, since the next one
//! that is put before the same number comes right behind it: so there is room for seventeen thousand
//! of them. Only where each is put before the one that came last is there room for no more than
//! four, and every fifth call walks.
//!
//! The numbers are those below a limit, and each stands in the order once at most. What it names is
//! the caller's. All room is made by `new`: no other call takes memory, and none can fail. It is an
//! error to call with a number that isn't below the limit, to add one that stands in the order, to
//! add before one that doesn't, and to ask for the neighbours of such a one. To remove such a one is
//! none, and does nothing. The rank of any number may be asked for, but only those of numbers in the
//! order say something.
#![tactic(auto)]

mod giving;
mod ranked;

pub use ranked::Ranked;
