//! The decision core of a queue manager: what is known of one life, and what is to be done next
//! (SCHEDULER_README, qmgr(8)). It sees ids, positions and counts, never a byte of a file.
//!
//! Contracts see what is known as plain lists (`State`). The core keeps it in parts whose room is
//! made once, by `new`, and in which decisions find what they need.
//!
//! `event` hears what came from outside. Then `next_decision` is called until it answers None, and
//! the next event may come. What it answers is
//!
//! - a decision, which the core has taken over already and the caller carries out on disk;
//! - a look at a queue, which the caller answers by `found`;
//! - a read of recipients, which the caller answers by `sited` for the site of each that was read
//!   and then `loaded`, or by `found` with `Damaged` where a record can't be read.
//!
//! Where a bounce that it has decided can't be made, the caller says so by `unbounceable`.
//!
//! It is an error to hear an event or to ask for a decision while a look or a read waits for its
//! answer. `decision` tells beforehand what `next_decision` would answer. Once it has answered a
//! `Skip`, `row_positions` tells by its number which recipients were put off; `entry_positions` tells
//! whom a delivery in flight goes to.
//!
//! What a call says of ledgers holds of each ledger with which the core agrees: one of a life that
//! goes on, whose parts the core holds as it should. All other clauses hold whatever was answered.
#![tactic(auto)]

mod admission;
mod applying;
mod beginning;
mod choice;
mod clearing;
mod clock;
mod corrupt;
mod counting;
mod dead_rows;
mod deciding;
mod decision;
mod delivery;
mod event;
mod finishing;
mod found;
mod grouping;
mod heard;
mod idle;
mod incoming;
mod joining;
pub mod laws;
mod leaving;
mod leftover;
mod loading;
mod marking;
mod names;
mod needs;
mod next;
mod paying;
mod picking;
mod preempting;
mod queries;
mod reading;
mod reply;
mod rows;
mod scan;
mod skip;
mod startable;
mod state;
mod suspending;
mod sync;
mod tidy;
mod tidy_touched;
mod touched;
mod unsettled;

pub use decision::{Decision, FileFacts, Found};
pub use event::Heard;
pub use q_dest::WideSiteRecord;
pub use q_jobs::Job;
pub use queries::Flight;
pub use state::Core;
