//! A host in memory, which tells all: its files with what isn't synced, the told bytes, and a
//! record of what was done, from which follows what a crash at any moment may have left.
//!
//! It is for tests and trials: a plan says which of its calls fail, and a crash keeps, loses or spoils
//! what wasn't synced. A planned call fails and does nothing; no other call fails, unless memory runs
//! out. What is an error to call is so here too: a file that a call wants has to be there.
//!
//! Files stand in the order of their areas and names. So a call finds a place by a search, and looks
//! at no other files but those that it lists; only a crash goes over all of them. A file that comes or
//! goes moves the files behind it in memory.
#![tactic(auto)]

mod changes;
mod file;
mod host;
mod listing;
mod mem_host;
mod placed_files;
mod plan;
mod record;
mod rot;

pub use mem_host::MemHost;
pub use rot::Rot;
