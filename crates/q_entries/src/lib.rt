//! The lines that the queue manager tells of what it does, and what stands on disk at each moment
//! while it does it.
//!
//! An entry of the ledger is carried out disk first: the book on disk becomes the one after the
//! entry, and then its line is told. `specs/Entries.antt` says this of one entry, of one that was
//! given up, and of each moment at which the program may be stopped; `specs/Runs.antt` says it of a
//! list of entries. The laws that put entries together are in `proofs/`, for the crates above.
//!
//! It is no error to tell an entry on a host whose disk isn't known: there nothing is promised but
//! the cause of a fault.
#![tactic(auto)]

mod telling;

pub use telling::tell;
