//! A host over folders of the system, one for each area below a root, and an output. It tells nothing
//! of its content, so what a crash leaves of it is left to the system; what it does for that is this:
//!
//! - By [`Syncs::Each`] what answers Ok is durable as `Host` says: bytes once their file was synced; a
//!   file that was made, renamed or removed once the call is over, since its folders are synced in the
//!   call. A file that is made in tmp is the exception: opening a spool clears tmp, so nothing rests on
//!   it.
//! - By [`Syncs::Grouped`] files are synced in their calls too, and folders together: before a line
//!   leaves, before bytes of a file are written that came to its place or rest on a failure log that
//!   did, at once where boot is changed, and else 50 milliseconds behind the first change, at the next
//!   one. So what was written to the output stands on the disk, where metadata reach it in the order of
//!   their changes; a loss of power may leave the folders as they were some lines before. Lines that are
//!   kept back leave by `flush`, which is to be called at the end.
//! - What reads give of names when the host is opened is durable, since it syncs all folders. Bytes
//!   that a killed process left unsynced are not: opening a spool syncs failure logs, and the first
//!   sync of a message left in active comes before anything rests on its marks.
//! - Folders are made for their owner alone (mode 700). One that is there already keeps its mode.
//! - One process at a time: the root is locked (flock(2)) as long as the host lives, and a file
//!   beside the folders has the number of the process. Who only looks is never kept out, locks
//!   nothing and makes nothing.
//! - No folder but a spool is changed, and none whose next ids stand already: the root is judged
//!   before anything is made in it. A message comes into active only where its file can be written.
//!
//! It is an error to change the files of these folders by hand while a host is open: names that it
//! has listed it goes on from, without a look at the folder.
#![tactic(auto)]

mod access;
mod changing;
mod fault;
mod folders;
mod host;
mod judging;
mod kept;
mod late;
mod locking;
mod looking;
mod names;
mod opening;
mod reading;
mod short;
mod spool;
mod system;

pub use access::{Access, Syncs};
pub use fault::{Call, Fault};
pub use host::FolderHost;
