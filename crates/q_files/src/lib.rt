//! A book on disk: each change of it as calls of a host, so that a crash at any moment leaves the
//! book before the change or the book behind it.
//!
//! A message is its queue file, which stands in one queue; what it moves through are renames. A
//! mark is one byte written in place, and sure once the file is synced. A failure is a record of
//! the message's log in bounce, which is appended to or written anew; who was put off is a record of
//! its log in defer, which no crash needs to keep. `specs/` says how each call changes the book.
//!
//! It is an error to name a spot where no file stands, to move a file to its own place, or to store
//! a code that is neither 0 nor 400 to 599. Where the host doesn't tell its files, the first two
//! are disk faults.
#![tactic(auto)]

mod dropping;
mod error;
mod failing;
mod marking;
mod moving;
mod noting;
mod places;
mod removing;
mod submitting;

pub use error::FileError;
pub use failing::store_failure;
pub use marking::{mark, sync_marks};
pub use moving::move_to;
pub use noting::{drop_notes, store_note};
pub use places::mark_place;
pub use removing::remove;
pub use submitting::submit;
