//! The recount of a trace: which entries continue a run on an empty spool, judged one after another
//! from plain lists.
//!
//! `Recount` holds the ledger that its entries have led to: the book with all its messages, what is
//! in memory, what waits, is in flight or is unsettled, the lines, the sites. `step` judges the entry
//! that comes next, and takes it over where it is lawful. A broken entry changes nothing.
#![tactic(auto)]

mod accounts;
mod admissions;
mod admitted;
mod arriving;
mod batches;
mod beginning;
mod book;
mod candidates;
mod changing;
mod choosing;
mod clock;
mod counting;
mod deliveries;
mod entries;
mod finishing;
mod ids;
mod joining;
mod judging;
mod leaving;
mod ledger;
mod leftovers;
mod line;
mod loading;
mod marking;
mod message;
mod message_changes;
mod moving;
mod next;
mod opening;
mod outcomes;
mod picking;
mod preempting;
mod recount;
mod reviving;
mod same;
mod scanning;
mod sending;
mod settling;
mod site_record;
mod sites;
mod starting;
mod tidying;
mod unused_sites;
mod verdict;
mod waiting;
mod waking;
mod windows;
mod world;

pub use recount::{Judged, Recount};
